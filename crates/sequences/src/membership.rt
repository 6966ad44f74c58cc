// "includes" and "oneof" (11.1.6).
ghost use Rattle.std.specs.Prelude.{◌≡◌, not, [], ◌∷◌};
ghost use Rattle.paper_expressions.specs.Operators as paper;
ghost use Rattle.values.specs.Meaning.{meaning_l, meaning_v};
ghost use Rattle.operators.specs.Means.{Means};
ghost use Rattle.sequences.specs.Tests.{missed};

use values::{List, Scalar, Value};

// Whether comp of some element and b is 0.
fn found(bytes: &[u8], l: List, b: Value) -> bool
    ensures { result ≡ not (missed (meaning_l bytes.now l) (meaning_v bytes.now b)) }
{
    for i in 0..values::size(l) {
        let v = values::single(values::get(l, i));
        if values::is_level(comparison::comp(bytes, v, b)) {
            return true;
        }
    }
    false
}

pub fn includes(bytes: &[u8], a: Value, b: Value) -> Value
    ensures { Means bytes.now paper.includes (a ∷ b ∷ []) result }
{
    values::single(Scalar::Truth(a.many && found(bytes, a.list, b)))
}

pub fn oneof(bytes: &[u8], a: Value, b: Value) -> Value
    ensures { Means bytes.now paper.oneof (a ∷ b ∷ []) result }
{
    includes(bytes, b, a)
}

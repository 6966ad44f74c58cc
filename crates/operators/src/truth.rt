// "and", "or" (11.1.4), "if" (11.2.1), "isknown" (11.2.3) and "not" (11.2.4).
ghost use Rattle.std.specs.Prelude.{◌≡◌, ◌&&◌, ◌||◌, List as Seq, [], ◌∷◌, ℕ};
ghost use Rattle.paper_expressions.specs.Operators as paper;
ghost use Rattle.operators.specs.Means.{Means};
ghost use Rattle.operators.specs.Twins.{true_c, false_c};

use values::{Scalar, Value};

pub fn is_true(s: Scalar) -> bool
    ensures { result ≡ true_c s }
{
    matches!(s, Scalar::Truth(true))
}

fn is_false(s: Scalar) -> bool
    ensures { result ≡ false_c s }
{
    matches!(s, Scalar::Truth(false))
}

pub fn and(a: Value, b: Value) -> Value
    ensures { (bs : Seq ℕ) → Means bs paper.and (a ∷ b ∷ []) result }
{
    let t = is_true(values::scalar_of(a)) && is_true(values::scalar_of(b));
    values::single(Scalar::Truth(t))
}

pub fn or(a: Value, b: Value) -> Value
    ensures { (bs : Seq ℕ) → Means bs paper.or (a ∷ b ∷ []) result }
{
    let t = is_true(values::scalar_of(a)) || is_true(values::scalar_of(b));
    values::single(Scalar::Truth(t))
}

pub fn not(a: Value) -> Value
    ensures { (bs : Seq ℕ) → Means bs paper.not (a ∷ []) result }
{
    values::single(Scalar::Truth(is_false(values::scalar_of(a))))
}

// As printed: true when the argument is unknown.
pub fn isknown(a: Value) -> Value
    ensures { (bs : Seq ℕ) → Means bs paper.isknown (a ∷ []) result }
{
    values::single(Scalar::Truth(!a.many && values::is_unknown(a.one)))
}

pub fn if_else(a: Value, b: Value, c: Value) -> Value
    ensures { (bs : Seq ℕ) → Means bs paper.if (a ∷ b ∷ c ∷ []) result }
{
    let s = values::scalar_of(a);
    if is_true(s) {
        b
    } else if is_false(s) {
        c
    } else {
        values::single(Scalar::Unknown)
    }
}

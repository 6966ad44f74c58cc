// "max" (11.2.7) and "min" (11.2.8): the first element that is known and that no element beats.
ghost use Rattle.std.specs.Prelude.{◌≡◌, [], ◌∷◌, ◌<◌};
ghost use Rattle.paper_expressions.specs.Limits.{list_limit};
ghost use Rattle.paper_expressions.specs.Values.{one, sequence};
ghost use Rattle.paper_expressions.specs.Operators as paper;
ghost use Rattle.paper_expressions.proofs.Laws.Only.{bestb, extreme_f};
ghost use Rattle.values.specs.Meaning.{meaning, meaning_l, size_of};
ghost use Rattle.operators.specs.Means.{Means, end};
ghost use Rattle.operators.specs.Comes.{given};
ghost use Rattle.sequences.specs.Tests.{fine_c, unbeatenb};

use numbers::Sign;
use operators::Extreme;
use values::{List, Scalar, Value};

// Whether comp of an element and another leaves the first in place.
fn fine(e: Extreme, s: Sign) -> bool
    ensures { result ≡ fine_c e s }
{
    match s {
        Sign::Greater => e == Extreme::Max,
        Sign::Less => e == Extreme::Min,
        Sign::Equal | Sign::Unknown => true,
        Sign::Unfit => false,
    }
}

// Whether no element beats the i-th.
fn unbeaten(bytes: &[u8], e: Extreme, l: List, i: usize) -> bool
    requires { i < size_of l }
    ensures { result ≡ unbeatenb (end e) (meaning_l bytes.now l) i }
{
    let x = values::get(l, i);
    for j in 0..values::size(l) {
        if !fine(e, comparison::comp_scalars(bytes, x, values::get(l, j))) {
            return false;
        }
    }
    true
}

// Whether the i-th is known and no element beats it.
fn best(bytes: &[u8], e: Extreme, l: List, i: usize) -> bool
    requires { (i < list_limit) × (i < size_of l) }
    ensures { result ≡ bestb (end e) (meaning_l bytes.now l) i }
{
    !values::is_unknown(values::get(l, i)) && unbeaten(bytes, e, l, i)
}

fn extreme_of(bytes: &[u8], e: Extreme, l: List) -> Scalar
    ensures { one (meaning bytes.now result) ≡ given (extreme_f (end e) (sequence (meaning_l bytes.now l))) }
{
    for i in 0..values::size(l) {
        if best(bytes, e, l, i) {
            return values::get(l, i);
        }
    }
    Scalar::Unknown
}

pub fn extreme(bytes: &[u8], e: Extreme, a: Value) -> Value
    ensures { Means bytes.now (paper.extreme (end e)) (a ∷ []) result }
{
    if a.many {
        values::single(extreme_of(bytes, e, a.list))
    } else {
        values::single(Scalar::Unknown)
    }
}

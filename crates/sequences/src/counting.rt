// "count" (11.2.5) and "nth" (11.2.9).
ghost use Rattle.std.specs.Prelude.{◌≡◌, List as Seq, [], ◌∷◌, ℕ, ◌≤◌, pos};
ghost use Rattle.paper_expressions.specs.Limits.{list_limit};
ghost use Rattle.paper_expressions.specs.Values.{one};
ghost use Rattle.paper_expressions.specs.Operators as paper;
ghost use Rattle.paper_expressions.proofs.Laws.Only.{at, nth_l};
ghost use Rattle.values.specs.Meaning.{meaning, meaning_l};
ghost use Rattle.operators.specs.Means.{Means};
ghost use Rattle.operators.specs.Comes.{given};

use numbers::{Num, Wide};
use values::{List, Scalar, Value};

fn wide_count(n: usize) -> Wide
    requires { n ≤ list_limit }
    ensures { result.z ≡ pos n }
{
    Wide { z: n as i64 }
}

pub fn count(a: Value) -> Value
    ensures { (bs : Seq ℕ) → Means bs paper.count (a ∷ []) result }
{
    if a.many {
        values::single(values::integer(wide_count(values::size(a.list))))
    } else {
        values::single(Scalar::Unknown)
    }
}

// The n-th of a list, counted from 1.
fn pick(l: List, n: Num) -> Scalar
    ensures { (bs : Seq ℕ) → one (meaning bs result) ≡ given (at (meaning_l bs l) n.z) }
{
    if n.z < 1 {
        return Scalar::Unknown;
    }
    let i = n.z as usize - 1;
    if i < values::size(l) {
        values::get(l, i)
    } else {
        Scalar::Unknown
    }
}

fn nth_of(s: Scalar, l: List) -> Scalar
    ensures { (bs : Seq ℕ) → one (meaning bs result) ≡ given (nth_l (one (meaning bs s)) (meaning_l bs l)) }
{
    match s {
        Scalar::Int(n) => pick(l, n),
        _ => Scalar::Unknown,
    }
}

pub fn nth(a: Value, b: Value) -> Value
    ensures { (bs : Seq ℕ) → Means bs paper.nth (a ∷ b ∷ []) result }
{
    if b.many {
        values::single(nth_of(values::scalar_of(a), b.list))
    } else {
        values::single(Scalar::Unknown)
    }
}

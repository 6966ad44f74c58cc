// "sum" (11.2.6): the limit is tested on the total.
ghost use Rattle.std.specs.Prelude.{◌≡◌, List as Seq, [], ◌∷◌, ℕ, ◌≤◌, ◌^◌, nat_abs};
ghost use Rattle.paper_expressions.specs.Values.{one, sequence};
ghost use Rattle.paper_expressions.specs.Operators as paper;
ghost use Rattle.paper_expressions.proofs.Laws.Only.{sum_f};
ghost use Rattle.values.specs.Meaning.{meaning, meaning_l};
ghost use Rattle.operators.specs.Means.{Means};
ghost use Rattle.operators.specs.Comes.{given};
ghost use Rattle.sequences.specs.Totals.{Totals, More, no_total, size, plus_c, total_c};

use numbers::Wide;
use values::{List, Scalar, Value};

// The sums of some scalars: of the integers, if each is one; in thousandths, if each is a number.
#[derive(Drop)]
pub struct Total {
    pub integers: Option<Wide>,
    pub thousandths: Option<Wide>,
}

fn start() -> Total
    ensures { Totals [] result × (size result.integers ≤ 0) × (size result.thousandths ≤ 0) }
{
    let zero = Wide { z: 0 };
    Total {
        integers: Some(zero),
        thousandths: Some(zero),
    }
}

// What is not a number leaves no sum.
fn none() -> Total
    ensures { result ≡ no_total }
{
    Total {
        integers: None,
        thousandths: None,
    }
}

// A number more, if there is a sum.
fn plus(n: Wide, sum: Option<Wide>) -> Option<Wide>
    requires { (nat_abs n.z ≤ 2 ^ 41) × (size sum ≤ 2 ^ 60) }
    ensures { result ≡ plus_c n sum }
{
    sum.map(|w| numbers::sum(n, w))
}

// One scalar more, before the others.
fn step(s: Scalar, t: Total) -> Total
    requires { (size t.integers ≤ 2 ^ 60) × (size t.thousandths ≤ 2 ^ 60) }
    ensures { More s t result }
{
    match s {
        Scalar::Int(n) => Total {
            integers: plus(Wide::from(n), t.integers),
            thousandths: plus(n.thousandths(), t.thousandths),
        },
        Scalar::Real(n) => Total {
            integers: None,
            thousandths: plus(Wide::from(n), t.thousandths),
        },
        _ => none(),
    }
}

fn finished(t: Total) -> Scalar
    ensures { result ≡ total_c t }
{
    match (t.integers, t.thousandths) {
        (Some(w), _) => values::integer(w),
        (None, Some(w)) => values::real(w),
        (None, None) => Scalar::Unknown,
    }
}

// From the last element to the first.
fn sum_of(l: List) -> Scalar
    ensures { (bs : Seq ℕ) → one (meaning bs result) ≡ given (sum_f (sequence (meaning_l bs l))) }
{
    let mut t = start();
    for i in (0..values::size(l)).rev() {
        t = step(values::get(l, i), t);
    }
    finished(t)
}

pub fn sum(a: Value) -> Value
    ensures { (bs : Seq ℕ) → Means bs paper.sum (a ∷ []) result }
{
    if a.many {
        values::single(sum_of(a.list))
    } else {
        values::single(Scalar::Unknown)
    }
}

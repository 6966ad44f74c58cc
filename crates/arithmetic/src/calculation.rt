// "+", "-", "*", "/" (11.1.1, 11.1.2) and unary minus (11.2.2).
ghost use Rattle.std.specs.Prelude.{◌≡◌, List as Seq, [], ◌∷◌, ℕ, ◌≤◌, ◌^◌, pos, nat_abs, ◌-ℤ◌};
ghost use Rattle.paper_expressions.specs.Operators as paper;
ghost use Rattle.paper_expressions.proofs.Laws.WithinLimits.{Limited};
ghost use Rattle.values.specs.Meaning.{meaning_v};
ghost use Rattle.operators.specs.Means.{Means, operation};
ghost use Rattle.arithmetic.specs.Twins.{combined, arith_c, quotient_c, divide_c, negate_c};

use numbers::{Num, Wide};
use operators::Arithmetic;
use values::{Scalar, Value};

// x + y, x - y, or the product p of the two.
fn combine(o: Arithmetic, x: Wide, y: Wide, p: Wide) -> Wide
    requires { (nat_abs x.z ≤ 2 ^ 61) × (nat_abs y.z ≤ 2 ^ 61) }
    ensures { result.z ≡ combined o x.z y.z p.z }
{
    match o {
        Arithmetic::Plus => numbers::sum(x, y),
        Arithmetic::Minus => numbers::difference(x, y),
        Arithmetic::Times => p,
    }
}

// The product of two reals, cut to thousandths.
fn real_product(x: Num, y: Num) -> Wide
    ensures { result.z ≡ paper.decimal paper.times x.z y.z }
{
    numbers::cut(numbers::product(x, y), Wide { z: Num::UNIT })
}

// Thousandths times an integer need no cut.
fn arithmetic_of(o: Arithmetic, a: Scalar, b: Scalar) -> Scalar
    ensures { result ≡ arith_c o a b }
{
    match (a, b) {
        (Scalar::Int(x), Scalar::Int(y)) => values::integer(combine(
            o,
            Wide::from(x),
            Wide::from(y),
            numbers::product(x, y),
        )),
        (Scalar::Int(x), Scalar::Real(y)) => values::real(combine(
            o,
            x.thousandths(),
            Wide::from(y),
            numbers::product(x, y),
        )),
        (Scalar::Real(x), Scalar::Int(y)) => values::real(combine(
            o,
            Wide::from(x),
            y.thousandths(),
            numbers::product(x, y),
        )),
        (Scalar::Real(x), Scalar::Real(y)) => values::real(combine(
            o,
            Wide::from(x),
            Wide::from(y),
            real_product(x, y),
        )),
        _ => Scalar::Unknown,
    }
}

pub fn arithmetic(o: Arithmetic, a: Value, b: Value) -> Value
    ensures { (bs : Seq ℕ) → Means bs (paper.arithmetic (operation o)) (a ∷ b ∷ []) result }
{
    values::single(arithmetic_of(o, values::scalar_of(a), values::scalar_of(b)))
}

// x / y, cut to thousandths; both in thousandths.
fn quotient(x: Wide, y: Wide) -> Scalar
    requires { nat_abs x.z ≤ 2 ^ 41 }
    ensures { result ≡ quotient_c x.z y.z }
{
    if y.is_zero() {
        Scalar::Unknown
    } else {
        values::real(numbers::cut(x.scaled(), y))
    }
}

fn divide_of(a: Scalar, b: Scalar) -> Scalar
    ensures { result ≡ divide_c a b }
{
    match (a, b) {
        (Scalar::Int(x), Scalar::Int(y)) => quotient(x.thousandths(), y.thousandths()),
        (Scalar::Int(x), Scalar::Real(y)) => quotient(x.thousandths(), Wide::from(y)),
        (Scalar::Real(x), Scalar::Int(y)) => quotient(Wide::from(x), y.thousandths()),
        (Scalar::Real(x), Scalar::Real(y)) => quotient(Wide::from(x), Wide::from(y)),
        _ => Scalar::Unknown,
    }
}

pub fn divide(a: Value, b: Value) -> Value
    ensures { (bs : Seq ℕ) → Means bs paper.divide (a ∷ b ∷ []) result }
{
    values::single(divide_of(values::scalar_of(a), values::scalar_of(b)))
}

fn minus(n: Num) -> Wide
    ensures { result.z ≡ pos 0 -ℤ n.z }
{
    numbers::difference(Wide { z: 0 }, Wide::from(n))
}

fn negate_of(a: Scalar) -> Scalar
    ensures { result ≡ negate_c a }
{
    match a {
        Scalar::Int(n) => values::integer(minus(n)),
        Scalar::Real(n) => values::real(minus(n)),
        _ => Scalar::Unknown,
    }
}

// Of a number that is within its limit; beyond it lies nothing that an expression comes to.
pub fn negate(a: Value) -> Value
    ensures { (bs : Seq ℕ) → Limited (meaning_v bs a) → Means bs paper.negate (a ∷ []) result }
{
    values::single(negate_of(values::scalar_of(a)))
}

// Sums, products and quotients of numbers, and their order.
ghost use Rattle.std.specs.Prelude.{◌≡◌, false, ◌≤◌, ◌^◌, pos, nat_abs, ◌+ℤ◌, ◌-ℤ◌, ◌*ℤ◌};
ghost use Rattle.paper_expressions.specs.Operators as paper;
ghost use Rattle.paper_expressions.proofs.Laws.Compare.{order_z};
ghost use Rattle.paper_expressions.proofs.Laws.Only.{zero_z};
ghost use Rattle.numbers.specs.Signs.{signed};

use crate::number::{Num, Wide};
use crate::sign::Sign;
use std::cmp::Ordering;

pub fn sum(a: Wide, b: Wide) -> Wide
    requires { (nat_abs a.z ≤ 2 ^ 61) × (nat_abs b.z ≤ 2 ^ 61) }
    ensures { result.z ≡ a.z +ℤ b.z }
{
    Wide { z: a.z + b.z }
}

pub fn difference(a: Wide, b: Wide) -> Wide
    requires { (nat_abs a.z ≤ 2 ^ 61) × (nat_abs b.z ≤ 2 ^ 61) }
    ensures { result.z ≡ a.z -ℤ b.z }
{
    Wide { z: a.z - b.z }
}

pub fn product(a: Num, b: Num) -> Wide
    ensures { (result.z ≡ a.z *ℤ b.z) × (nat_abs result.z ≤ 2 ^ 62) }
{
    Wide {
        z: Wide::from(a).z * Wide::from(b).z,
    }
}

// The quotient, cut toward zero: for real products and for quotients.
pub fn cut(n: Wide, d: Wide) -> Wide
    requires { (nat_abs n.z ≤ 2 ^ 62) × (zero_z d.z ≡ false) }
    ensures { result.z ≡ paper.cut n.z d.z }
{
    Wide { z: n.z / d.z }
}

pub fn order(a: Wide, b: Wide) -> Sign
    ensures { result ≡ signed (order_z a.z b.z) }
{
    match a.z.cmp(&b.z) {
        Ordering::Greater => Sign::Greater,
        Ordering::Less => Sign::Less,
        Ordering::Equal => Sign::Equal,
    }
}

// Numbers with their sign.
ghost use Rattle.std.specs.Prelude.{◌≡◌, nat_abs};
ghost use Rattle.paper_guideline.specs.Line.{with_sign, with_point, digits_of};
ghost use Rattle.digits.specs.Appends.{Appends};
ghost use Rattle.digits.specs.Signed.{sign_of};

use crate::append::byte;
use crate::decimal::{number, thousandths};
use numbers::Num;

// A number without its sign.
fn magnitude(n: Num) -> usize
    ensures { result ≡ nat_abs n.z }
{
    n.z.unsigned_abs() as usize
}

// A minus, or nothing.
fn sign(n: Num, out: &mut [u8], o: usize) -> usize
    ensures { Appends out.old out.new o result (sign_of n.z) }
{
    if n.z < 0 { byte(b'-', out, o) } else { o }
}

// An integer in digits.
pub fn integer(n: Num, out: &mut [u8], o: usize) -> usize
    ensures { Appends out.old out.new o result (with_sign digits_of n.z) }
{
    let p = sign(n, out, o);
    number(magnitude(n), out, p)
}

// A real, of so many thousandths.
pub fn real(n: Num, out: &mut [u8], o: usize) -> usize
    ensures { Appends out.old out.new o result (with_sign with_point n.z) }
{
    let p = sign(n, out, o);
    thousandths(magnitude(n), out, p)
}

// Numbers in decimal digits, appended to a lent buffer.
ghost use Rattle.std.specs.Prelude.{[], ◌∷◌};
ghost use Rattle.paper_guideline.specs.Line.{digits_of, with_point};
ghost use Rattle.digits.specs.Appends.{Appends};
ghost use Rattle.digits.specs.Digits.{digit_of};

use crate::append::byte;
use numbers::Num;

const BASE: usize = 10;

// One, in thousandths.
const UNIT: usize = Num::UNIT as usize;

// The byte of the digit 0.
const ZERO: usize = b'0' as usize;

// The last digit of a number.
fn digit(n: usize, out: &mut [u8], o: usize) -> usize
    ensures { Appends out.old out.new o result (digit_of n ∷ []) }
{
    byte((ZERO + n % BASE) as u8, out, o)
}

// All of its digits: those of its tenth, and the last.
pub fn number(n: usize, out: &mut [u8], o: usize) -> usize
    ensures { Appends out.old out.new o result (digits_of n) }
{
    if n < BASE {
        return digit(n, out, o);
    }
    let p = number(n / BASE, out, o);
    digit(n, out, p)
}

// So many thousandths: the whole part, a point, three digits.
pub fn thousandths(n: usize, out: &mut [u8], o: usize) -> usize
    ensures { Appends out.old out.new o result (with_point n) }
{
    let whole = number(n / UNIT, out, o);
    let point = byte(b'.', out, whole);
    let first = digit(n / BASE / BASE, out, point);
    let second = digit(n / BASE, out, first);
    digit(n, out, second)
}

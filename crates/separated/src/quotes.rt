// A field, as it is written: between quotes where it has to be, each quote of its own twice.
ghost use Rattle.std.specs.Prelude.{◌≡◌};
ghost use Rattle.digits.specs.Appends.{Appends};
ghost use Rattle.separated.specs.Quotes.{special as specialOf, specials, escaped as escapedOf, doubled as doubledOf, between, as_written};

use crate::machine::Byte;
use digits::{byte, word};

// Whether a byte asks for quotes: a quote, a separator, or a part of the end of a line.
fn special(b: u8, separator: u8) -> bool
    ensures { result ≡ specialOf separator b }
{
    b == separator || b == Byte::QUOTE || b == Byte::NEWLINE || b == Byte::RETURN
}

// Whether a field has such a byte.
fn has_special(field: &[u8], separator: u8) -> bool
    ensures { result ≡ specials separator field.now }
{
    for b in field {
        if special(*b, separator) {
            return true;
        }
    }
    false
}

// One byte between quotes.
fn escaped(b: u8, out: &mut [u8], o: usize) -> usize
    ensures { Appends out.old out.new o result (escapedOf b) }
{
    if b == Byte::QUOTE {
        let p = byte(Byte::QUOTE, out, o);
        return byte(Byte::QUOTE, out, p);
    }
    byte(b, out, o)
}

// What stands between the quotes.
fn doubled(field: &[u8], out: &mut [u8], o: usize) -> usize
    ensures { Appends out.old out.new o result (doubledOf field.now) }
{
    let mut p = o;
    for b in field {
        p = escaped(*b, out, p);
    }
    p
}

// A field between quotes.
pub fn quoted(field: &[u8], out: &mut [u8], o: usize) -> usize
    ensures { Appends out.old out.new o result (between field.now) }
{
    let p = byte(Byte::QUOTE, out, o);
    let q = doubled(field, out, p);
    byte(Byte::QUOTE, out, q)
}

// A field, between quotes if it has to be.
pub fn put(field: &[u8], separator: u8, out: &mut [u8], o: usize) -> usize
    ensures { Appends out.old out.new o result (as_written separator field.now) }
{
    if has_special(field, separator) {
        quoted(field, out, o)
    } else {
        word(field, out, o)
    }
}

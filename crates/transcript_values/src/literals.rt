// One scalar: a letter for the kind, then digits.
ghost use Rattle.std.specs.Prelude.{◌≡◌, ◌∷◌, ◌<◌};
ghost use Rattle.paper_expressions.specs.Values as paper;
ghost use Rattle.paper_guideline.specs.Line.{digits_of, with_sign};
ghost use Rattle.values.specs.Meaning.{bytes_of, meaning};
ghost use Rattle.digits.specs.Appends.{Appends};
ghost use Rattle.transcript_values.specs.Literals.{hex_digit, in_hex, all_hex, scalar_literal};

use digits::{byte, integer, word};
use numbers::Num;
use parts::names::at;
use values::{Handle, Scalar};

fn truth(t: bool, out: &mut [u8], o: usize) -> usize
    ensures { Appends out.old out.new o result (scalar_literal (paper.truth t)) }
{
    if t {
        word(b"b1", out, o)
    } else {
        word(b"b0", out, o)
    }
}

// A kind's letter and a number with its sign: of a real, its thousandths.
fn signed(kind: u8, n: Num, out: &mut [u8], o: usize) -> usize
    ensures { Appends out.old out.new o result (kind ∷ with_sign digits_of n.z) }
{
    let p = byte(kind, out, o);
    integer(n, out, p)
}

fn hexadecimal(n: u8) -> u8
    requires { n < 16 }
    ensures { result ≡ hex_digit n }
{
    if n < 10 { b'0' + n } else { b'a' - 10 + n }
}

fn two_digits(b: u8, out: &mut [u8], o: usize) -> usize
    ensures { Appends out.old out.new o result (in_hex b) }
{
    let p = byte(hexadecimal(b / 16), out, o);
    byte(hexadecimal(b % 16), out, p)
}

// The bytes of a text in hexadecimal digits.
fn spelt(bytes: &[u8], h: Handle, out: &mut [u8], o: usize) -> usize
    ensures { Appends out.old out.new o result (all_hex (bytes_of bytes.now h)) }
{
    let mut p = o;
    for i in 0..h.len {
        p = two_digits(at(bytes, h.at, i), out, p);
    }
    p
}

fn text(bytes: &[u8], h: Handle, out: &mut [u8], o: usize) -> usize
    ensures { Appends out.old out.new o result (scalar_literal (paper.text (bytes_of bytes.now h))) }
{
    let p = byte(b't', out, o);
    spelt(bytes, h, out, p)
}

// Any scalar, by its kind.
pub fn scalar(bytes: &[u8], s: Scalar, out: &mut [u8], o: usize) -> usize
    ensures { Appends out.old out.new o result (scalar_literal (meaning bytes.now s)) }
{
    match s {
        Scalar::Unknown => byte(b'u', out, o),
        Scalar::Truth(t) => truth(t, out, o),
        Scalar::Int(n) => signed(b'i', n, out, o),
        Scalar::Real(n) => signed(b'r', n, out, o),
        Scalar::Text(h) => text(bytes, h, out, o),
    }
}

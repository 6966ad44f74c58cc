// One scalar: a text is written bare, what is unknown as that word.
ghost use Rattle.paper_expressions.specs.Values as paper;
ghost use Rattle.paper_guideline.specs.Line.{scalar_written};
ghost use Rattle.values.specs.Meaning.{bytes_of, meaning};
ghost use Rattle.digits.specs.Appends.{Appends};

use digits::{byte, integer, real, word};
use parts::names::at;
use values::{Handle, Scalar};

// A truth value as a word.
fn truth(b: bool, out: &mut [u8], o: usize) -> usize
    ensures { Appends out.old out.new o result (scalar_written (paper.truth b)) }
{
    if b {
        word(b"true", out, o)
    } else {
        word(b"false", out, o)
    }
}

// The bytes of a text.
fn text(bytes: &[u8], h: Handle, out: &mut [u8], o: usize) -> usize
    ensures { Appends out.old out.new o result (bytes_of bytes.now h) }
{
    let mut p = o;
    for i in 0..h.len {
        p = byte(at(bytes, h.at, i), out, p);
    }
    p
}

// Any scalar, by its kind.
pub fn scalar(bytes: &[u8], s: Scalar, out: &mut [u8], o: usize) -> usize
    ensures { Appends out.old out.new o result (scalar_written (meaning bytes.now s)) }
{
    match s {
        Scalar::Unknown => word(b"unknown", out, o),
        Scalar::Truth(b) => truth(b, out, o),
        Scalar::Int(n) => integer(n, out, o),
        Scalar::Real(n) => real(n, out, o),
        Scalar::Text(h) => text(bytes, h, out, o),
    }
}

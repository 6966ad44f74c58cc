// A value as a literal: a list in parentheses, with a comma between its elements.
ghost use Rattle.paper_expressions.specs.Bytes as text;
ghost use Rattle.transcript_values.specs.Literals.{scalar_literal, value_literal};
ghost use Rattle.values.specs.Meaning.{meaning_v};
ghost use Rattle.digits.specs.Appends.{Appends};

use crate::literals;
use digits::{byte, word};
use values::{Scalar, Value};
use written::{Notation, value_in};

// The notation of replay's lines.
#[derive(Drop)]
pub struct Literal;

impl Notation for Literal {
    ghost opening = { text.bytes "l(" };

    ghost between = { text.bytes "," };

    ghost closing = { text.bytes ")" };

    ghost spelt = { scalar_literal };

    fn open(out: &mut [u8], o: usize) -> usize {
        word(b"l(", out, o)
    }

    fn part(out: &mut [u8], o: usize) -> usize {
        byte(b',', out, o)
    }

    fn close(out: &mut [u8], o: usize) -> usize {
        byte(b')', out, o)
    }

    fn scalar(bytes: &[u8], s: Scalar, out: &mut [u8], o: usize) -> usize {
        literals::scalar(bytes, s, out, o)
    }
}

// A value: a list, or one scalar.
pub fn value(bytes: &[u8], v: Value, out: &mut [u8], o: usize) -> usize
    ensures { Appends out.old out.new o result (value_literal (meaning_v bytes.now v)) }
{
    value_in::<Literal>(bytes, v, out, o)
}

// A value as an answer has it: a list in square brackets, with a comma and a blank between its elements.
ghost use Rattle.paper_expressions.specs.Bytes as text;
ghost use Rattle.paper_guideline.specs.Line.{scalar_written, value_written};
ghost use Rattle.values.specs.Meaning.{meaning_v};
ghost use Rattle.digits.specs.Appends.{Appends};

use crate::lists::{Notation, value_in};
use crate::scalars;
use digits::{byte, word};
use values::{Scalar, Value};

// The notation of answers.
#[derive(Drop)]
pub struct Plain;

impl Notation for Plain {
    ghost opening = { text.bytes "[" };

    ghost between = { text.bytes ", " };

    ghost closing = { text.bytes "]" };

    ghost spelt = { scalar_written };

    fn open(out: &mut [u8], o: usize) -> usize {
        byte(b'[', out, o)
    }

    fn part(out: &mut [u8], o: usize) -> usize {
        word(b", ", out, o)
    }

    fn close(out: &mut [u8], o: usize) -> usize {
        byte(b']', out, o)
    }

    fn scalar(bytes: &[u8], s: Scalar, out: &mut [u8], o: usize) -> usize {
        scalars::scalar(bytes, s, out, o)
    }
}

// A value: a list, or one scalar.
pub fn value(bytes: &[u8], v: Value, out: &mut [u8], o: usize) -> usize
    ensures { Appends out.old out.new o result (value_written (meaning_v bytes.now v)) }
{
    value_in::<Plain>(bytes, v, out, o)
}

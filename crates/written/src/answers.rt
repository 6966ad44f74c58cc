// The answer of a line, behind its number.
ghost use Rattle.paper_guideline.specs.Line.{answer_written};
ghost use Rattle.paper_guideline.specs.Line as line;
ghost use Rattle.values.specs.Meaning.{meaning_v};
ghost use Rattle.digits.specs.Appends.{Appends};
ghost use Rattle.std.specs.Prelude.{◌≡◌};
ghost use Rattle.written.specs.Limit.{answer_limit};
ghost use Rattle.written.specs.Named.{OfType, name_of, answer_of};

use crate::plain::value;
use digits::{byte, number, word};
use values::Value;

// The answer to a line.
#[derive(Drop)]
pub struct Answer;

impl Answer {
    // bytes of an answer
    pub const LIMIT: usize = 1_024;

    pub fn bytes() -> usize
        ensures { result ≡ answer_limit }
    {
        Answer::LIMIT
    }
}

// The name of the type that has the letter.
fn type_name(letter: u8, out: &mut [u8], o: usize) -> usize
    ensures { OfType letter out.old out.new o result name_of }
{
    match letter {
        b'T' => word(b"text", out, o),
        b'I' => word(b"integer", out, o),
        b'R' => word(b"real", out, o),
        b't' => word(b"setof_text", out, o),
        b'r' => word(b"setof_real", out, o),
        b'i' => word(b"setof_integer", out, o),
        b'a' => word(b"setof_anything", out, o),
        b'B' => word(b"truth_value", out, o),
        _ => o,
    }
}

// An expression of the type that has the letter, with its value.
pub fn gives(bytes: &[u8], letter: u8, v: Value, out: &mut [u8], o: usize) -> usize
    ensures { OfType letter out.old out.new o result (answer_of (meaning_v bytes.now v)) }
{
    let p = type_name(letter, out, o);
    let q = byte(b' ', out, p);
    value(bytes, v, out, q)
}

// A refusal, by its number.
pub fn refused(n: u8, out: &mut [u8], o: usize) -> usize
    ensures { Appends out.old out.new o result (answer_written (line.refused n)) }
{
    let p = word(b"refused ", out, o);
    number(n as usize, out, p)
}

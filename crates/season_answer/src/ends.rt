// The last two fields: the cycles that were enacted, and how the line ended.
ghost use Rattle.digits.specs.Appends.{Appends};
ghost use Rattle.season_answer.specs.Fields as fields;

use crate::called::name;
use crate::room::{front, last, nothing};
use endings::Ending;

// The most bytes of a refusal with the name of a data item.
const WORDS: usize = 96;

// A run that came to this ending, after so many cycles.
pub fn ended(ending: u32, n: usize, separator: u8, out: &mut [u8], o: usize) -> usize
    ensures { Appends out.old out.new o result (fields.ended_written ending n separator) }
{
    let q = digits::number(n, out, o);
    let p = digits::byte(separator, out, q);
    match ending {
        Ending::QUIET => last(b"quiet", separator, out, p),
        Ending::BOUNDED => last(b"bounded", separator, out, p),
        _ => last(b"exception", separator, out, p),
    }
}

// The refusal, with the name that has the handle `h`.
fn refusal(number: u8, texts: &[u8], h: usize, w: &mut [u8]) -> usize
    ensures { Appends w.old w.new 0 result (fields.refusal number texts.now h) }
{
    let p = digits::word(b"refused ", w, 0);
    let q = digits::number(usize::from(number), w, p);
    let r = digits::word(b": ", w, q);
    name(texts, h, w, r)
}

// A line with a value that is refused: the number, and the data item, whose name has the handle `h`.
pub fn refused(number: u8, texts: &[u8], h: usize, separator: u8, out: &mut [u8], o: usize) -> usize
    ensures { Appends out.old out.new o result (fields.refused_written number texts.now h separator) }
{
    let mut w = [0u8; WORDS];
    let k = refusal(number, texts, h, &mut w);
    let p = nothing(separator, out, o);
    let q = nothing(separator, out, p);
    last(front(&w, k), separator, out, q)
}

// A line that is no record.
pub fn unread(separator: u8, out: &mut [u8], o: usize) -> usize
    ensures { Appends out.old out.new o result (fields.unread_written separator) }
{
    let p = nothing(separator, out, o);
    let q = nothing(separator, out, p);
    last(b"unread", separator, out, q)
}

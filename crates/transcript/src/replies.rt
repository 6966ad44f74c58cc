// The answers to calls, a line each.
ghost use Rattle.digits.specs.Appends.{Appends};
ghost use Rattle.transcript.specs.Answers.{reply_written, refused_lined, counted_written};

use crate::rows::refused;
use digits::{byte, word};
use replying::Reply;
use transcript_values::buffer::next_number;

// Of a call that sets something.
pub fn replied(r: Reply, out: &mut [u8], o: usize) -> usize
    ensures { Appends out.old out.new o result (reply_written r) }
{
    match r {
        Reply::Done => word(b"done\n", out, o),
        Reply::Refused(n) => refused_line(n, 0, out, o),
    }
}

pub fn refused_line(n: u8, place: usize, out: &mut [u8], o: usize) -> usize
    ensures { Appends out.old out.new o result (refused_lined n place) }
{
    let p = refused(n, place, out, o);
    byte(b'\n', out, p)
}

// A word, and a number: how a run ended, and the number of its cycles; the time; the Exception flag.
pub fn counted(w: &[u8], n: u32, out: &mut [u8], o: usize) -> usize
    ensures { Appends out.old out.new o result (counted_written w.now n) }
{
    let p = word(w, out, o);
    let q = next_number(n as usize, out, p);
    byte(b'\n', out, q)
}

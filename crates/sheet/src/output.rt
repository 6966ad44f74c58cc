// What the small program writes, in a lent buffer: the header, and step by step each line's number and answer.
ghost use Rattle.std.specs.Prelude.{◌≡◌, length, take};
ghost use Rattle.digits.specs.Appends.{Appends};
ghost use Rattle.line_answer.specs.Reply.{Reply};
ghost use Rattle.sheet.specs.Steps.{line_limit, following, Room, Starts, LineWritten, Steps, Ends};

use lines::Taken;
use written::Answer;

#[derive(Drop)]
pub struct Written;

impl Written {
    // bytes of a line: twenty digits, a blank, the answer, a newline
    pub const LINE: usize = 20 + 1 + Answer::LIMIT + 1;

    pub fn line() -> usize
        ensures { result ≡ line_limit }
    {
        Written::LINE
    }
}

// So many bytes of the line of this number are kept, the program has come to this place in the chunk, and so many bytes stand in the buffer.
#[derive(Clone, Copy)]
pub struct State {
    pub at: usize,
    pub n: usize,
    pub number: usize,
    pub o: usize,
}

// The header.
pub fn start(out: &mut [u8]) -> State
    requires { Room out.old 0 }
    ensures { Starts out.old out.new result }
{
    let o = digits::word(b"line type value\n", out, 0);
    State {
        at: 0,
        n: 0,
        number: 1,
        o,
    }
}

// The first n bytes of a text.
fn first(text: &[u8], n: usize) -> &[u8]
    ensures { result.now ≡ take n text.now }
{
    text.get(..n).unwrap_or(text)
}

// One line: its number, a blank, its answer, a newline.
fn write_line(kept: &[u8], n: usize, number: usize, out: &mut [u8], o: usize) -> usize
    requires { Room out.old o }
    ensures { LineWritten (take n kept.now) number out.old out.new o result }
{
    let mut text = [0u8; Answer::LIMIT];
    let len = line_answer::answer(first(kept, n), &mut text);
    let a = digits::number(number, out, o);
    let b = digits::byte(b' ', out, a);
    let c = digits::word(first(&text, len), out, b);
    digits::byte(b'\n', out, c)
}

// The number of the next line.
fn next(number: usize) -> usize
    ensures { result ≡ following number }
{
    number.saturating_add(1)
}

// One call of take, and the line written where it ended.
pub fn step(chunk: &[u8], kept: &mut [u8], out: &mut [u8], s: State) -> State
    requires { Room out.old s.o }
    ensures { Steps chunk.now kept.old kept.new out.old out.new s result }
{
    let Taken { at, n, ended } = lines::take(chunk, s.at, kept, s.n);
    if ended {
        let o = write_line(kept, n, s.number, out, s.o);
        State {
            at,
            n: 0,
            number: next(s.number),
            o,
        }
    } else {
        State { at, n, ..s }
    }
}

// The end of the input: a last line without a newline is written, if it has any byte.
pub fn last(kept: &[u8], out: &mut [u8], s: State) -> usize
    requires { Room out.old s.o }
    ensures { Ends kept.now out.old out.new s result }
{
    if s.n == 0 {
        s.o
    } else {
        write_line(kept, s.n, s.number, out, s.o)
    }
}

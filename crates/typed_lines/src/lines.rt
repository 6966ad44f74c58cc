// Lines from standard input: what a read returns is kept in a buffer, and what stands behind a newline stays for the next line.
ghost use Rattle.std.specs.Prelude.{◌≡◌, true, false, ◌≤◌, length};
ghost use Rattle.typed_lines.specs.Lines.{Newline, HasLine, LineHeld, Shifted, Dropped};

use std::io::{Read, Stdin};

#[derive(Drop)]
pub struct Line {}

impl Line {
    // bytes of a line, with its newline, that are kept; a longer one is told
    pub const LIMIT: usize = 4_096;
}

// What the buffer holds: so many bytes; whether the line that they begin is too long, its beginning being lost; whether the input has ended.
#[derive(Clone, Copy)]
pub struct Held {
    pub bytes: usize,
    pub long: bool,
    pub ended: bool,
}

pub fn nothing() -> Held
    ensures { (result.bytes ≡ 0) × (result.long ≡ false) × (result.ended ≡ false) }
{
    Held {
        bytes: 0,
        long: false,
        ended: false,
    }
}

// One read more, behind the n bytes that are held.
fn more(stdin: &mut Stdin, buffer: &mut [u8], n: usize) -> usize
    requires { n ≤ length buffer.old }
    ensures { (n ≤ result) × (result ≤ length buffer.old) }
{
    match stdin.read(&mut buffer[n..]) {
        Ok(got) => n + got,
        Err(_) => n,
    }
}

// The place of the first newline of n bytes, or n.
pub fn newline(buffer: &[u8], n: usize) -> usize
    ensures { Newline buffer.now n result }
{
    for i in 0..n {
        if parts::byte(buffer, i) == b'\n' {
            return i;
        }
    }
    n
}

// Reads on, unless the buffer has a whole line: a line that fills it is too long, and its beginning goes.
fn read_on(stdin: &mut Stdin, buffer: &mut [u8], h: Held) -> Held
    ensures { length buffer.new ≡ length buffer.old }
{
    let n = h.bytes;
    if buffer.len() <= n {
        return Held {
            bytes: 0,
            long: true,
            ended: h.ended,
        };
    }
    let m = more(stdin, buffer, n);
    Held {
        bytes: m,
        long: h.long,
        ended: m == n,
    }
}

// Whether the buffer has a line, or the last one, whose newline may be missing.
fn is_line(buffer: &[u8], h: Held) -> bool
    ensures { (result ≡ true → HasLine buffer.now h) × (HasLine buffer.now h → result ≡ true) }
{
    h.ended || newline(buffer, h.bytes) < h.bytes
}

// Reads until there is a line, or the input has ended. A proved loop has to end, so its turns are counted, up to a number that no line uses up: it ends the input.
pub fn next(stdin: &mut Stdin, buffer: &mut [u8], h: Held) -> Held
    ensures { LineHeld buffer.old h buffer.new result }
{
    let mut now = h;
    for _turn in 0..u64::MAX {
        if is_line(buffer, now) {
            return now;
        }
        now = read_on(stdin, buffer, now);
    }
    Held {
        bytes: now.bytes,
        long: now.long,
        ended: true,
    }
}

// Takes the line off that ends at a place: what stands behind its newline moves to the front.
pub fn drop(buffer: &mut [u8], h: Held, end: usize) -> Held
    ensures { Dropped buffer.old h end buffer.new result }
{
    let n = h.bytes;
    if n <= end {
        return Held {
            bytes: 0,
            long: false,
            ended: h.ended,
        };
    }
    let from = end + 1;
    shift(buffer, from, n);
    Held {
        bytes: n - from,
        long: false,
        ended: h.ended,
    }
}

// The bytes from one place up to another, to the front.
fn shift(buffer: &mut [u8], from: usize, to: usize)
    ensures { Shifted buffer.old from to buffer.new }
{
    let end = to.min(buffer.len());
    if from < end {
        buffer.copy_within(from..end, 0);
    }
}

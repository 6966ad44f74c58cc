// The small program: reads one expression a line and writes, behind a header, for each line its number, type and value, or its refusal.
// It only moves bytes: it reads a chunk as it comes, has its lines answered, and writes the answers before it reads on.
#![tactic(auto)]

mod output;

ghost use Rattle.std.specs.Prelude.{◌≤◌, ◌<◌, length};
ghost use Rattle.lines.specs.Kept.{kept_limit};
ghost use Rattle.sheet.specs.Steps.{line_limit};
ghost use Rattle.sheet.specs.Cleared.{Cleared};

use output::{State, Written};
use std::io::{Read, Stdin};

const STDOUT_FILENO: i32 = 1;

// Writes the first o bytes of the buffer.
fn write(out: &[u8], o: usize) {
    if let Some(bytes) = out.get(..o) {
        io::write_all(STDOUT_FILENO, bytes);
    }
}

// Writes what stands in the buffer, which then has room again.
fn empty(out: &[u8], s: State) -> State
    requires { line_limit ≤ length out.now }
    ensures { Cleared out.now s result }
{
    write(out, s.o);
    State { o: 0, ..s }
}

// The same, where there may be no room for one line more.
fn room(out: &[u8], s: State) -> State
    requires { line_limit ≤ length out.now }
    ensures { Cleared out.now s result }
{
    if out.len() - Written::LINE < s.o {
        empty(out, s)
    } else {
        s
    }
}

// One step, with room for a line.
fn step(chunk: &[u8], kept: &mut [u8], out: &mut [u8], s: State) -> State
    requires { line_limit ≤ length out.old }
    ensures { s.at < length chunk.now → s.at < result.at }
{
    let ready = room(out, s);
    output::step(chunk, kept, out, ready)
}

// The lines of a chunk, from its beginning to its end.
fn answer(chunk: &[u8], kept: &mut [u8], out: &mut [u8], begun: State) -> State
    requires { line_limit ≤ length out.old }
{
    let mut s = State { at: 0, ..begun };
    while s.at < chunk.len() {
        s = step(chunk, kept, out, s);
    }
    s
}

// Reads as much of the input as there is, at most a chunk: the number of bytes, none at the end.
fn read(stdin: &mut Stdin, chunk: &mut [u8]) -> usize
    ensures { result ≤ length chunk.new }
{
    stdin.read(chunk).unwrap_or(0)
}

// The whole input: reads a chunk, answers its lines and writes the answers, until there is none.
// A proved loop has to end, so the turns are counted, up to a number that no input uses up.
fn all(stdin: &mut Stdin, chunk: &mut [u8], kept: &mut [u8], out: &mut [u8], begun: State) -> State
    requires { line_limit ≤ length out.old }
{
    let mut s = begun;
    for _ in 0..u64::MAX {
        let n = read(stdin, chunk);
        if n == 0 {
            break;
        }
        let answered = answer(&chunk[..n], kept, out, s);
        s = empty(out, answered);
    }
    s
}

// Writes the header.
fn begin(out: &mut [u8]) -> State
    requires { line_limit ≤ length out.old }
{
    let header = output::start(out);
    empty(out, header)
}

// Writes the last line, where the input does not end with a newline.
fn end(kept: &[u8], out: &mut [u8], s: State)
    requires { line_limit ≤ length out.old }
{
    let ready = empty(out, s);
    let o = output::last(kept, out, ready);
    write(out, o);
}

fn run(stdin: &mut Stdin, chunk: &mut [u8], kept: &mut [u8], out: &mut [u8])
    requires { (kept_limit ≤ length kept.old) × (line_limit ≤ length out.old) }
{
    let begun = begin(out);
    let s = all(stdin, chunk, kept, out, begun);
    end(kept, out, s);
}

fn main(rt: HostRuntime) {
    let mut stdin = rt.stdin();
    let mut chunk = io::large_buffer();
    let mut kept = io::large_buffer();
    let mut out = io::large_buffer();
    run(&mut stdin, &mut chunk, &mut kept, &mut out);
}

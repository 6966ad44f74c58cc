// A sheet as it comes in chunks: the first line, then all others. It is read through a buffer, so that any number of lines takes the same room.
ghost use Rattle.std.specs.Prelude.{◌<◌, ◌≤◌, length, ◌≡◌};
ghost use Rattle.season.specs.UntilQuiet.{line};
ghost use Rattle.season.specs.Chunks as sheet;

use crate::buffer::flush;
use crate::joined::plan_of;
use crate::one_line::Season;
use crate::records::Work;
use crate::{first_line, records};
use limits::WaitTable;
use separated::{Scan, Taken};
use std::io::{Read, Stdin};

const STDIN_FILENO: i32 = 0;

// What was taken of a chunk: the record is answered, if it ended.
fn taken(
    tables: &[u32],
    waits: WaitTable,
    texts: &[u8],
    columns: &[u32],
    kept: &[u8],
    ends: &[usize],
    s: Season,
    w: Work,
    scan: Scan,
    out: &mut [u8],
) -> Work
    ensures { sheet.Took tables.now texts.now waits (line columns.now s.many kept.now ends.now s.confirms) s.separator w scan out.old out.new result }
{
    let now = Work { scan, ..w };
    if scan.done {
        records::answer(tables, waits, texts, columns, kept, ends, s, now, out)
    } else {
        now
    }
}

// A place in a chunk, and how far it is.
#[derive(Drop)]
pub struct Place {
    at: usize,
    work: Work,
}

// The record at a place, or what the chunk has of it.
fn step(
    chunk: &[u8],
    p: Place,
    tables: &[u32],
    waits: WaitTable,
    texts: &[u8],
    columns: &[u32],
    kept: &mut [u8],
    ends: &mut [usize],
    s: Season,
    out: &mut [u8],
) -> Place
    requires { p.at < length chunk.now }
    ensures { p.at < result.at }
{
    let t = separated::take(chunk, p.at, p.work.scan, s.separator, kept, ends);
    Place {
        at: t.at,
        work: taken(
            tables, waits, texts, columns, kept, ends, s, p.work, t.scan, out,
        ),
    }
}

// The records of a chunk from a place on.
fn in_chunk(
    chunk: &[u8],
    from: usize,
    tables: &[u32],
    waits: WaitTable,
    texts: &[u8],
    columns: &[u32],
    kept: &mut [u8],
    ends: &mut [usize],
    s: Season,
    begun: Work,
    out: &mut [u8],
) -> Work {
    let mut p = Place {
        at: from,
        work: begun,
    };
    // stays: no plainer, a turn goes on by as many bytes as a record has
    while p.at < chunk.len() {
        p = step(chunk, p, tables, waits, texts, columns, kept, ends, s, out);
    }
    p.work
}

// What the first line says: whether it is one, how many bytes the chunk has and where in it the next begins, and what is the same for all lines.
#[derive(Drop)]
pub struct Begun {
    well: bool,
    n: usize,
    at: usize,
    season: Season,
    work: Work,
}

// Reads the first line, and writes that of the answer if all is well.
fn begin(
    chunk: &[u8],
    tables: &[u32],
    texts: &[u8],
    kept: &mut [u8],
    ends: &mut [usize],
    columns: &mut [u32],
    out: &mut [u8],
    confirms: bool,
) -> Begun {
    let plan = plan_of(tables);
    let separator = separated::told_by(chunk);
    let Taken { at, scan } = first_line::take(chunk, separator, kept, ends);
    let many = scan.fields;
    let season = Season {
        many,
        separator,
        confirms,
    };
    let well = first_line::is_well(scan, plan, texts, kept, ends, columns);
    let o = first_line::answer(well, plan, texts, columns, many, kept, ends, separator, out);
    Begun {
        well,
        n: chunk.len(),
        at,
        season,
        work: records::begin(scan.lines, o, 0),
    }
}

// Reads as much as there is, at most a chunk: the number of bytes, none at the end.
fn read(stdin: &mut Stdin, chunk: &mut [u8]) -> usize
    ensures { result ≤ length chunk.new }
{
    stdin.read(chunk).unwrap_or(0)
}

// Writes what stands in the buffer, which then has room again.
fn emptied(out: &[u8], w: Work) -> Work
    ensures { result ≡ sheet.written_out w }
{
    flush(out, w.o);
    Work { o: 0, ..w }
}

// The last line, where it does not end with a newline.
fn end(
    tables: &[u32],
    waits: WaitTable,
    texts: &[u8],
    columns: &[u32],
    kept: &[u8],
    ends: &mut [usize],
    s: Season,
    w: Work,
    out: &mut [u8],
) {
    if !w.scan.began {
        flush(out, w.o);
        return;
    }
    let last = separated::finish(w.scan, ends);
    let done = taken(tables, waits, texts, columns, kept, ends, s, w, last, out);
    flush(out, done.o);
}

// The lines behind the first, from a place of the first chunk on, which has `n` bytes: answers the lines of a chunk, reads the next, and writes
// the answers. A proved loop has to end, so the chunks are counted, up to a number that no input uses up.
fn lines(
    stdin: &mut Stdin,
    chunk: &mut [u8],
    mut n: usize,
    mut at: usize,
    tables: &[u32],
    waits: WaitTable,
    texts: &[u8],
    columns: &[u32],
    kept: &mut [u8],
    ends: &mut [usize],
    s: Season,
    begun: Work,
    out: &mut [u8],
) -> Work
    requires { n ≤ length chunk.old }
{
    let mut work = begun;
    for _ in 0..u64::MAX {
        work = in_chunk(
            &chunk[..n],
            at,
            tables,
            waits,
            texts,
            columns,
            kept,
            ends,
            s,
            work,
            out,
        );
        n = read(stdin, chunk);
        at = 0;
        work = emptied(out, work);
        if n == 0 {
            break;
        }
    }
    work
}

// Reads the first chunk, and in it the first line.
fn opened(
    chunk: &mut [u8],
    tables: &[u32],
    texts: &[u8],
    kept: &mut [u8],
    ends: &mut [usize],
    columns: &mut [u32],
    out: &mut [u8],
    confirms: bool,
) -> Begun {
    let n = io::read_full(STDIN_FILENO, chunk);
    begin(
        &chunk[..n],
        tables,
        texts,
        kept,
        ends,
        columns,
        out,
        confirms,
    )
}

// Answers what stands behind the first line.
fn behind(
    stdin: &mut Stdin,
    chunk: &mut [u8],
    b: Begun,
    tables: &[u32],
    waits: WaitTable,
    texts: &[u8],
    columns: &[u32],
    kept: &mut [u8],
    ends: &mut [usize],
    out: &mut [u8],
) {
    let Begun {
        n,
        at,
        season: s,
        work,
        ..
    } = b;
    if chunk.len() < n {
        return;
    }
    let w = lines(
        stdin, chunk, n, at, tables, waits, texts, columns, kept, ends, s, work, out,
    );
    end(tables, waits, texts, columns, kept, ends, s, w, out);
}

// The whole sheet.
pub fn answer(
    stdin: &mut Stdin,
    tables: &[u32],
    waits: WaitTable,
    texts: &[u8],
    chunk: &mut [u8],
    kept: &mut [u8],
    ends: &mut [usize],
    columns: &mut [u32],
    out: &mut [u8],
    confirms: bool,
) {
    let b = opened(chunk, tables, texts, kept, ends, columns, out, confirms);
    if !b.well {
        return;
    }
    behind(
        stdin, chunk, b, tables, waits, texts, columns, kept, ends, out,
    );
}

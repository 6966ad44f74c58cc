// Records as they come in chunks: the bytes of their fields are kept one behind the other in a lent buffer, without quotes, and beside them
// where each field ends.
ghost use Rattle.std.specs.Prelude.{length, set, drop, ◌≡◌};
ghost use Rattle.separated.specs.Records as records;
ghost use Rattle.separated.specs.Reading as reading;

use crate::machine::{Act, Byte, Mode, kind_of, step};

#[derive(Drop)]
pub struct Fault {}

// Why a line is no record.
// stays: promise of begun, spoilt_by and fault_in, which have these numbers
impl Fault {
    pub const NONE: u8 = 0;

    // a quote inside a field that has none around it
    pub const QUOTE_INSIDE: u8 = 1;

    // something behind the quote that closes a field
    pub const BEHIND_QUOTE: u8 = 2;

    // a carriage return without its newline
    pub const LONE_RETURN: u8 = 3;

    // a quote that nothing closes
    pub const OPEN: u8 = 4;

    // more bytes, or more fields, than are kept
    pub const TOO_LONG: u8 = 5;

    pub const TOO_MANY: u8 = 6;
}

// How far reading has come: in the record (bytes kept, fields ended, whether it began, whether it ended, what is wrong with it and in which
// field), and in the input (lines that ended).
#[derive(Clone, Copy)]
pub struct Scan {
    pub mode: Mode,
    pub n: usize,
    pub fields: usize,
    pub began: bool,
    pub done: bool,
    pub fault: u8,
    pub wrong: usize,
    pub lines: u64,
}

// The same, and the place in the chunk where to go on.
#[derive(Drop)]
pub struct Taken {
    pub at: usize,
    pub scan: Scan,
}

// A new record, behind so many lines.
pub fn begin(lines: u64) -> Scan
    ensures { result ≡ records.begun lines }
{
    Scan {
        mode: Mode::Before,
        n: 0,
        fields: 0,
        began: false,
        done: false,
        fault: Fault::NONE,
        wrong: 0,
        lines,
    }
}

fn lines_with(n: u64, b: u8) -> u64
    ensures { result ≡ reading.lines_with n b }
{
    if b == Byte::NEWLINE {
        n.saturating_add(1)
    } else {
        n
    }
}

// The mode behind the byte `b`.
fn moved(s: Scan, mode: Mode, b: u8) -> Scan
    ensures { result ≡ reading.moved_to mode b s }
{
    Scan {
        mode,
        began: true,
        done: false,
        lines: lines_with(s.lines, b),
        ..s
    }
}

// The first thing that is wrong counts.
fn spoilt(mut s: Scan, fault: u8) -> Scan
    ensures { result ≡ records.spoilt_by fault s }
{
    if s.fault == Fault::NONE {
        s.fault = fault;
        s.wrong = s.fields;
    }
    s
}

// What is wrong with a byte that no record has in this mode.
fn fault_in(m: Mode) -> u8
    ensures { result ≡ reading.fault_in m }
{
    match m {
        Mode::Bare => Fault::QUOTE_INSIDE,
        Mode::Closed => Fault::BEHIND_QUOTE,
        Mode::Returned => Fault::LONE_RETURN,
        Mode::Before | Mode::Quoted | Mode::Lost => Fault::NONE,
    }
}

fn keep(mut s: Scan, b: u8, kept: &mut [u8]) -> Scan
    ensures { (result ≡ reading.byte_kept (length kept.old) s) × (kept.new ≡ set kept.old s.n b) }
{
    if kept.len() <= s.n {
        return spoilt(s, Fault::TOO_LONG);
    }
    kept[s.n] = b;
    s.n += 1;
    s
}

fn end_field(mut s: Scan, ends: &mut [usize]) -> Scan
    ensures { (result ≡ records.field_ended (length ends.old) s) × (ends.new ≡ set ends.old s.fields s.n) }
{
    if ends.len() <= s.fields {
        return spoilt(s, Fault::TOO_MANY);
    }
    ends[s.fields] = s.n;
    s.fields += 1;
    s
}

fn end_record(s: Scan, ends: &mut [usize]) -> Scan
    ensures { (result ≡ records.record_ended (length ends.old) s) × (ends.new ≡ set ends.old s.fields s.n) }
{
    let mut t = end_field(s, ends);
    t.done = true;
    t
}

// One byte more.
#[tactic(auto, unfolding(crate::specs::Reading::read_byte))]
fn advance(s: Scan, b: u8, separator: u8, kept: &mut [u8], ends: &mut [usize]) -> Scan
    ensures { reading.read result kept.new ends.new ≡ reading.read_byte separator (reading.read s kept.old ends.old) b }
{
    let m = step(s.mode, kind_of(b, separator));
    let t = moved(s, m.mode, b);
    match m.act {
        Act::Keep => keep(t, b, kept),
        Act::Pass => t,
        Act::End => end_field(t, ends),
        Act::Last => end_record(t, ends),
        Act::Fault => spoilt(t, fault_in(s.mode)),
    }
}

// The bytes of a chunk from a place on, up to the record's end or the chunk's.
pub fn take(
    chunk: &[u8],
    from: usize,
    begun: Scan,
    separator: u8,
    kept: &mut [u8],
    ends: &mut [usize],
) -> Taken
    ensures { reading.reached result.at (reading.read result.scan kept.new ends.new) ≡ reading.read_from separator from (reading.read begun kept.old ends.old) (drop from chunk.now) }
{
    let mut scan = begun;
    for at in from..chunk.len() {
        scan = advance(scan, chunk[at], separator, kept, ends);
        if scan.done {
            return Taken { at: at + 1, scan };
        }
    }
    Taken {
        at: from.max(chunk.len()),
        scan,
    }
}

// What is wrong with a record that the end of the input cuts off.
fn cut_off(s: Scan) -> Scan
    ensures { result ≡ records.cut_off s.mode s }
{
    match s.mode {
        Mode::Quoted => spoilt(s, Fault::OPEN),
        Mode::Returned => spoilt(s, Fault::LONE_RETURN),
        Mode::Before | Mode::Bare | Mode::Closed | Mode::Lost => s,
    }
}

// The end of the input, where a record began: it ends there too.
pub fn finish(s: Scan, ends: &mut [usize]) -> Scan
    ensures { (result ≡ records.finished (length ends.old) s) × (ends.new ≡ set ends.old s.fields s.n) }
{
    end_record(cut_off(s), ends)
}

// The calls, one a line.
ghost use Rattle.std.specs.Prelude.{◌≡◌};
ghost use Rattle.script.specs.Lexemes.{number_at};
ghost use Rattle.script.specs.Places as places;
ghost use Rattle.script.specs.Values.{ValuePut, trigger_in, time_or_trigger_in, LineRead};

use crate::lexemes::{NOWHERE, after, behind, number_at, text_at};
use crate::values::value;
use parts::byte;

// The greatest numbers that a script has.
const WIDE: u64 = 9_223_372_036_854_775_807;

const NARROW: u64 = 4_294_967_295;

const ROWS_LENT: u64 = 8_192;

// A call with what it is given: of a load, where its text begins and ends; of a trigger, how many bytes were read for it.
// A value that is added stands in the cells and bytes that were lent.
#[derive(Drop)]
pub enum Call {
    Load(usize, usize),
    Run(u64, u64),
    Time(u64),
    Confirm(u64),
    Add(u64),
    Trigger(usize),
    Row(u64, u64, u64),
    Rows,
}

// A call, and the place behind its line.
#[derive(Drop)]
pub struct Line {
    pub call: Call,
    pub next: usize,
}

fn nothing() -> Line
    ensures { result ≡ places.no_line }
{
    Line {
        call: Call::Rows,
        next: NOWHERE,
    }
}

// The line of a text: it begins behind the number of its bytes, and a newline follows it.
fn load(s: &[u8], at: usize) -> Line
    ensures { result ≡ places.load_line s.now at }
{
    let n = number_at(s, at, NARROW, b'\n');
    let from = n.next;
    let many = n.value as usize;
    if s.len() <= many || s.len() - many <= from {
        return nothing();
    }
    let to = from + many;
    Line {
        call: Call::Load(from, to),
        next: behind(s, to, b"\n"),
    }
}

fn run(s: &[u8], at: usize) -> Line
    ensures { result ≡ places.run_line s.now at }
{
    let bound = number_at(s, at, WIDE, b' ');
    let lent = number_at(s, bound.next, ROWS_LENT, b'\n');
    Line {
        call: Call::Run(bound.value, lent.value),
        next: lent.next,
    }
}

fn time(s: &[u8], at: usize) -> Line
    ensures { result ≡ places.time_line s.now at }
{
    let seconds = number_at(s, at, WIDE, b'\n');
    Line {
        call: Call::Time(seconds.value),
        next: seconds.next,
    }
}

fn confirm(s: &[u8], at: usize) -> Line
    ensures { result ≡ places.confirm_line s.now at }
{
    let task = number_at(s, at, NARROW, b'\n');
    Line {
        call: Call::Confirm(task.value),
        next: task.next,
    }
}

fn add(s: &[u8], at: usize, tags: &mut [u32], numbers: &mut [i64], bytes: &mut [u8]) -> Line
    ensures { ValuePut s.now (number_at s.now at 4294967295 32).next tags.old numbers.old bytes.old tags.new numbers.new bytes.new × (result ≡ places.add_line s.now at) }
{
    let item = number_at(s, at, NARROW, b' ');
    let end = value(s, item.next, tags, numbers, bytes);
    Line {
        call: Call::Add(item.value),
        next: behind(s, end, b"\n"),
    }
}

fn trigger(s: &[u8], at: usize, bytes: &mut [u8]) -> Line
    ensures { (bytes.new ≡ trigger_in s.now at bytes.old) × (result ≡ places.trigger_line s.now at) }
{
    let none = behind(s, at, b"-\n");
    if none != NOWHERE {
        return Line {
            call: Call::Trigger(0),
            next: none,
        };
    }
    let t = text_at(s, at, bytes, 0);
    Line {
        call: Call::Trigger(t.len),
        next: behind(s, t.next, b"\n"),
    }
}

fn row(s: &[u8], at: usize) -> Line
    ensures { result ≡ places.row_line s.now at }
{
    let kind = number_at(s, at, NARROW, b' ');
    let component = number_at(s, kind.next, NARROW, b' ');
    let property = number_at(s, component.next, NARROW, b'\n');
    Line {
        call: Call::Row(kind.value, component.value, property.value),
        next: property.next,
    }
}

fn rows(s: &[u8], at: usize) -> Line
    ensures { result ≡ places.rows_line s.now at }
{
    Line {
        call: Call::Rows,
        next: behind(s, at, b"s\n"),
    }
}

// The lines that begin with `row`, and those with `r`.
fn row_or_rows(s: &[u8], at: usize) -> Line
    ensures { result ≡ places.row_or_rows s.now at }
{
    let p = behind(s, at, b" ");
    if p == NOWHERE {
        return rows(s, at);
    }
    row(s, p)
}

fn run_or_row(s: &[u8], at: usize) -> Line
    ensures { result ≡ places.run_or_row s.now at }
{
    let p = behind(s, at, b"un ");
    if p == NOWHERE {
        return row_or_rows(s, behind(s, at, b"ow"));
    }
    run(s, p)
}

fn time_or_trigger(s: &[u8], at: usize, bytes: &mut [u8]) -> Line
    ensures { (bytes.new ≡ time_or_trigger_in s.now at bytes.old) × (result ≡ places.time_or_trigger s.now at) }
{
    let p = behind(s, at, b"ime ");
    if p == NOWHERE {
        return trigger(s, behind(s, at, b"rigger "), bytes);
    }
    time(s, p)
}

// The line that begins here. What it is given goes to cells and bytes.
pub fn line_at(s: &[u8], at: usize, tags: &mut [u32], numbers: &mut [i64], bytes: &mut [u8]) -> Line
    ensures { LineRead s.now at tags.old numbers.old bytes.old tags.new numbers.new bytes.new result }
{
    let p = after(s, at);
    match byte(s, at) {
        b'a' => add(s, behind(s, p, b"dd "), tags, numbers, bytes),
        b'c' => confirm(s, behind(s, p, b"onfirm ")),
        b'l' => load(s, behind(s, p, b"oad ")),
        b'r' => run_or_row(s, p),
        b't' => time_or_trigger(s, p, bytes),
        _ => nothing(),
    }
}

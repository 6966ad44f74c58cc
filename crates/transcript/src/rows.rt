// What reading a row answers.
ghost use Rattle.std.specs.Prelude.{◌++◌};
ghost use Rattle.paper_expressions.specs.Bytes.{bytes as bytes_of};
ghost use Rattle.paper_guideline.specs.Line.{digits_of};
ghost use Rattle.digits.specs.Appends.{Appends};
ghost use Rattle.transcript.specs.Answers.{refused_written, state_word, class_word, type_word, row_written, row_lined};

use digits::{byte, number, word};
use row_shown::{Class, Row, Shown};
use transcript_values::buffer::next_number;
use transcript_values::value;

// A refusal, with its number and its place.
pub fn refused(n: u8, place: usize, out: &mut [u8], o: usize) -> usize
    ensures { Appends out.old out.new o result (refused_written n place) }
{
    let p = word(b"refused", out, o);
    let q = next_number(n as usize, out, p);
    next_number(place, out, q)
}

#[tactic(auto, unfolding(crate::specs::Answers::state_words))]
fn state(n: u32, out: &mut [u8], o: usize) -> usize
    ensures { Appends out.old out.new o result (state_word n) }
{
    match n {
        1 => word(b"dormant", out, o),
        2 => word(b"in_progress", out, o),
        3 => word(b"discarded", out, o),
        _ => word(b"completed", out, o),
    }
}

// The classes that a load gives.
#[tactic(auto, unfolding(crate::specs::Answers::class_words))]
fn class(n: u32, out: &mut [u8], o: usize) -> usize
    ensures { Appends out.old out.new o result (class_word n) }
{
    match n {
        Class::DATA_ITEM => word(b"data_item", out, o),
        Class::PLAN => word(b"plan", out, o),
        Class::ENQUIRY => word(b"enquiry", out, o),
        Class::ACTION => word(b"action", out, o),
        _ => word(b"source", out, o),
    }
}

#[tactic(auto, unfolding(crate::specs::Answers::type_words))]
fn declared(n: u32, out: &mut [u8], o: usize) -> usize
    ensures { Appends out.old out.new o result (type_word n) }
{
    match n {
        1 => word(b"text", out, o),
        2 => word(b"integer", out, o),
        3 => word(b"boolean", out, o),
        4 => word(b"datetime", out, o),
        5 => word(b"date", out, o),
        6 => word(b"time", out, o),
        7 => word(b"real", out, o),
        8 => word(b"setof_text", out, o),
        9 => word(b"setof_integer", out, o),
        _ => word(b"setof_real", out, o),
    }
}

fn time(n: u32, out: &mut [u8], o: usize) -> usize
    ensures { Appends out.old out.new o result (bytes_of "@" ++ digits_of n) }
{
    let p = byte(b'@', out, o);
    number(n as usize, out, p)
}

fn component(kind: u8, n: u32, out: &mut [u8], o: usize) -> usize
    ensures { Appends out.old out.new o result (bytes_of "#" ++ digits_of kind ++ bytes_of "." ++ digits_of n) }
{
    let p = byte(b'#', out, o);
    let q = number(kind as usize, out, p);
    let r = byte(b'.', out, q);
    number(n as usize, out, r)
}

// The answer, whose texts stand in these bytes.
pub fn shown(bytes: &[u8], r: Row, out: &mut [u8], o: usize) -> usize
    ensures { Appends out.old out.new o result (row_written bytes.now r) }
{
    match r.shown {
        Shown::NoRow => word(b"none", out, o),
        Shown::There => byte(b'*', out, o),
        Shown::OfValue => value(bytes, r.value, out, o),
        Shown::OfState(n) => state(n, out, o),
        Shown::OfClass(n) => class(n, out, o),
        Shown::OfType(n) => declared(n, out, o),
        Shown::OfTime(n) => time(n, out, o),
        Shown::OfComponent(k, n) => component(k, n, out, o),
        Shown::Refused(n) => refused(n, 0, out, o),
    }
}

// The line of a row: its kind, component and property before it.
pub fn row(
    bytes: &[u8],
    kind: u64,
    component: u64,
    property: u64,
    r: Row,
    out: &mut [u8],
    o: usize,
) -> usize
    ensures { Appends out.old out.new o result (row_lined bytes.now kind component property r) }
{
    let a = number(kind as usize, out, o);
    let b = next_number(component as usize, out, a);
    let c = next_number(property as usize, out, b);
    let d = byte(b' ', out, c);
    let e = shown(bytes, r, out, d);
    byte(b'\n', out, e)
}

// One row: the name of its property, and what it holds.
ghost use Rattle.std.specs.Prelude.{◌≡◌};
ghost use Rattle.told_rows.specs.There.{there_is};

use crate::properties::Property;
use crate::{components, properties};
use limits::Marks;
use row_shown::{Row, Shown};
use sentences::write;
use values::Value;

// A class, by its number of document 01.
fn class(n: u32) {
    match n {
        1 => write::text(b"data_item"),
        3 => write::text(b"plan"),
        5 => write::text(b"enquiry"),
        6 => write::text(b"action"),
        _ => write::text(b"source"),
    }
}

// A row of which it is told only that it is there: what the plan tells of it.
fn there(rows: &[u32], texts: &[u8], plan: &[u32], before: Marks, t: usize, p: u64) {
    match p {
        Property::ANTECEDENT_TASKS => components::tasks(rows, texts, plan, before),
        Property::SOURCES => components::sources(texts, plan, t),
        Property::POSTCONDITION => {
            write::text(b"assigns to ");
            components::assigned(texts, plan, t);
        }
        _ => write::text(b"an expression"),
    }
}

fn time(n: u32) {
    write::text(b"engine time ");
    write::number(n as usize);
}

// What is shown, where that needs no name.
fn plain(texts: &[u8], s: Shown, v: Value) {
    match s {
        Shown::There => write::text(b"an expression"),
        Shown::OfValue => worded::value(texts, v),
        Shown::OfState(n) => worded::state(n as usize),
        Shown::OfClass(n) => class(n),
        Shown::OfType(n) => worded::declared(n as usize),
        Shown::OfTime(n) => time(n),
        Shown::NoRow | Shown::OfComponent(_, _) | Shown::Refused(_) => {}
    }
}

// What the row `r` of the property `p` of the task `t` holds; `before` are the tasks that it waits for.
fn held(rows: &[u32], texts: &[u8], plan: &[u32], before: Marks, t: usize, p: u64, r: Row) {
    match r.shown {
        Shown::There => there(rows, texts, plan, before, t, p),
        Shown::OfComponent(_, n) => worded::task(rows, texts, plan, n as usize),
        _ => plain(texts, r.shown, r.value),
    }
}

// Whether there is a row to tell of.
fn is_row(s: Shown) -> bool
    ensures { result ≡ there_is s }
{
    !matches!(s, Shown::NoRow | Shown::Refused(_))
}

// The line of a row of the task `t`, if there is one.
pub fn of_task(rows: &[u32], texts: &[u8], plan: &[u32], before: Marks, t: usize, p: u64, r: Row) {
    if !is_row(r.shown) {
        return;
    }
    properties::name(p);
    write::text(b": ");
    held(rows, texts, plan, before, t, p, r);
    write::text(b"\n");
}

// The line of a row of a data item, if there is one.
pub fn of_item(texts: &[u8], p: u64, r: Row) {
    if !is_row(r.shown) {
        return;
    }
    properties::name(p);
    write::text(b": ");
    plain(texts, r.shown, r.value);
    write::text(b"\n");
}

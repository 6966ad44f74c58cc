// The values that a cycle gives to data items, and those of them that collide.
ghost use Rattle.advise.specs.RunTold.{NewValues};

use crate::done::{NUMBER, PROPERTY, before, cell};
use assigning::Slot;
use changes::Column;
use items::Form;
use known_names::Sort;
use limits::{Assignments, DataItems};
use sentences::write;
use state::Plan;

// The scratch for the new values of all data items: cells, and bytes.
pub const NEWS: usize = Slot::CELLS * DataItems::LIMIT;

const TEXTS: usize = Form::BYTES * DataItems::LIMIT;

// The values that the first m rows ask for, each worked out in the state before them.
pub fn gather(
    parts: &[u32],
    texts: &[u8],
    plan: &[u32],
    state: &[u32],
    out: &[u32],
    m: usize,
    news: &mut [u32],
)
    ensures { NewValues parts.now texts.now plan.now state.now out.now m news.old news.new }
{
    let mut bytes = [0u8; TEXTS];
    gathering::gather(parts, texts, plan, state, out, m, news, &mut bytes);
}

// What the data item was given: nothing, one value, or more.
fn mark(news: &[u32], d: usize) -> u32 {
    if DataItems::LIMIT <= d {
        return Slot::EMPTY;
    }
    blocks::cell(news, Slot::CELLS * d)
}

// The data item, if it was given a value; whether there was one by now.
fn listed(rows: &[u32], texts: &[u8], plan: &[u32], news: &[u32], d: usize, any: bool) -> bool {
    if mark(news, d) == Slot::EMPTY {
        return any;
    }
    before(true, any, b" set ");
    known_names::tell(rows, texts, plan, Sort::Item, d);
    true
}

// The data items that were given a value.
pub fn tell(rows: &[u32], texts: &[u8], plan: &[u32], news: &[u32]) {
    let mut any = false;
    for d in 0..DataItems::LIMIT {
        any = listed(rows, texts, plan, news, d, any);
    }
}

// The task whose assignment to the data item the i-th row is, if it is such a row.
fn assigning(plan: &[u32], out: &[u32], i: usize, d: usize) -> Option<usize> {
    if cell(out, i, PROPERTY) != Column::VALUE {
        return None;
    }
    let a = cell(out, i, NUMBER) as usize;
    if Assignments::LIMIT <= a || parts::number(plan, Plan::ASSIGNED_ITEM + a) != d {
        return None;
    }
    Some(parts::number(plan, Plan::ASSIGNING_TASK + a))
}

// The tasks that gave the data item its values, each once where its assignments follow each other.
fn givers(rows: &[u32], texts: &[u8], plan: &[u32], out: &[u32], m: usize, d: usize) {
    let mut last = None;
    for i in 0..m {
        if let Some(t) = assigning(plan, out, i, d) {
            if last != Some(t) {
                write::text(if last.is_some() { b" and by " } else { b" by " });
                known_names::tell(rows, texts, plan, Sort::Task, t);
                last = Some(t);
            }
        }
    }
}

// The data item, if it was given different values.
fn collision(
    rows: &[u32],
    texts: &[u8],
    plan: &[u32],
    out: &[u32],
    m: usize,
    news: &[u32],
    d: usize,
) {
    if mark(news, d) != Slot::COLLIDED {
        return;
    }
    write::text(b"  ");
    known_names::tell(rows, texts, plan, Sort::Item, d);
    write::text(b" was given different values");
    givers(rows, texts, plan, out, m, d);
    write::text(b".\n");
}

// Every data item that was given different values.
pub fn collisions(rows: &[u32], texts: &[u8], plan: &[u32], out: &[u32], m: usize, news: &[u32]) {
    for d in 0..DataItems::LIMIT {
        collision(rows, texts, plan, out, m, news, d);
    }
}

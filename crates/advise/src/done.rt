// What the rows of the Changes table do to the tasks, and which data items they ask for.
ghost use Rattle.std.specs.Prelude.{◌≡◌};
ghost use Rattle.advise.specs.RunTold.{cell_of, component_of, rowb, idleb, hushed_row, Hushed};

use changes::{Column, Row, State};
use known_names::Sort;
use limits::Changes;
use sentences::write;
use state::{Property, Tag};

// The cells of a row.
const COMPONENT: usize = 0;

pub const PROPERTY: usize = 1;

pub const NUMBER: usize = 3;

// What is asked of a row: its property, its number, and what has it.
#[derive(Clone, Copy)]
pub struct Asked {
    pub property: u32,
    pub number: u32,
    pub sort: Sort,
}

// The cell k of the i-th row.
pub fn cell(out: &[u32], i: usize, k: usize) -> u32
    ensures { result ≡ cell_of out.now i k }
{
    if Changes::ROWS <= i || Row::CELLS <= k {
        return 0;
    }
    blocks::cell(out, Row::CELLS * i + k)
}

// The number of the component of the i-th row.
pub fn component(out: &[u32], i: usize) -> usize
    ensures { result ≡ component_of out.now i }
{
    (cell(out, i, COMPONENT) % Row::ITEM) as usize
}

// Whether the i-th row sets the property to the number.
fn is_row(out: &[u32], i: usize, property: u32, number: u32) -> bool
    ensures { result ≡ rowb out.now i property number }
{
    cell(out, i, PROPERTY) == property && cell(out, i, NUMBER) == number
}

// Whether the i-th row leaves a dormant task as it is.
fn is_idle(out: &[u32], i: usize, state: &[u32]) -> bool
    ensures { result ≡ idleb out.now i state.now }
{
    let c = component(out, i);
    is_row(out, i, Column::STATE, State::DORMANT)
        && state::row_is(state, Property::STATE, c, Tag::STATE, state::State::DORMANT)
}

// Takes such a row out of those that are told.
fn hush_row(out: &mut [u32], i: usize, state: &[u32])
    ensures { out.new ≡ hushed_row out.old i state.now }
{
    if i < Changes::ROWS && is_idle(out, i, state) {
        blocks::put_cell(out, Row::CELLS * i + PROPERTY, 0);
    }
}

// The same for each of m rows: a plan that starts makes all its components dormant, which they mostly are.
pub fn hush(out: &mut [u32], m: usize, state: &[u32])
    ensures { Hushed out.old m state.now out.new }
{
    for i in 0..m {
        hush_row(out, i, state);
    }
}

// What stands before a name: the word before the first, a comma before another.
pub fn before(begun: bool, any: bool, word: &[u8]) {
    if any {
        write::text(b", ");
        return;
    }
    if begun {
        write::text(b";");
    }
    write::text(word);
}

// The i-th row, if it is such a one; whether there was one by now.
fn listed(
    rows: &[u32],
    texts: &[u8],
    plan: &[u32],
    out: &[u32],
    i: usize,
    a: Asked,
    begun: bool,
    any: bool,
    word: &[u8],
) -> bool {
    if !is_row(out, i, a.property, a.number) {
        return any;
    }
    before(begun, any, word);
    known_names::tell(rows, texts, plan, a.sort, component(out, i));
    true
}

// Every one of m rows that is such a one, behind a word; whether anything stands there by now.
fn group(
    rows: &[u32],
    texts: &[u8],
    plan: &[u32],
    out: &[u32],
    m: usize,
    a: Asked,
    begun: bool,
    word: &[u8],
) -> bool {
    let mut any = false;
    for i in 0..m {
        any = listed(rows, texts, plan, out, i, a, begun, any, word);
    }
    any || begun
}

// Rows that bring a task to a state.
fn to(state: u32) -> Asked {
    Asked {
        property: Column::STATE,
        number: state,
        sort: Sort::Task,
    }
}

// Rows that ask for a data item.
fn requested() -> Asked {
    Asked {
        property: Column::REQUESTED,
        number: 1,
        sort: Sort::Item,
    }
}

// The rows that bring tasks on; whether anything stands there by now.
fn moved(rows: &[u32], texts: &[u8], plan: &[u32], out: &[u32], m: usize) -> bool {
    let i = to(State::IN_PROGRESS);
    let a = group(rows, texts, plan, out, m, i, false, b" started ");
    let c = to(State::COMPLETED);
    let b = group(rows, texts, plan, out, m, c, a, b" completed ");
    let d = to(State::DISCARDED);
    group(rows, texts, plan, out, m, d, b, b" discarded ")
}

// The m rows, by what they do.
pub fn tell(rows: &[u32], texts: &[u8], plan: &[u32], out: &[u32], m: usize) {
    let a = moved(rows, texts, plan, out, m);
    let d = to(State::DORMANT);
    let b = group(rows, texts, plan, out, m, d, a, b" made dormant ");
    group(rows, texts, plan, out, m, requested(), b, b" asked for ");
}

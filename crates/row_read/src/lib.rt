// Reading a row of the Properties table, by kind, number and property.
#![tactic(auto)]

ghost use Rattle.std.specs.Prelude.{◌≡◌};
ghost use Rattle.paper_rows.specs.Table.{task, data_item, source};
ghost use Rattle.planned.specs.Planned.{sources_in};
ghost use Rattle.replying.specs.Ready.{loaded_f};
ghost use Rattle.row_read.specs.Found.{OfKind};
ghost use Rattle.row_read.specs.Read.{RowOf, ReadsRow};

use limits::{DataItems, Refusal, Sources, Tasks, WaitTable};
use row_shown::{Row, Shown};
use state::Plan;

#[derive(Drop)]
pub struct Kind {}

// The kinds that have rows, as a call names them.
impl Kind {
    pub const TASK: u64 = row_shown::Kind::TASK as u64;

    pub const DATA_ITEM: u64 = row_shown::Kind::DATA_ITEM as u64;

    pub const SOURCE: u64 = row_shown::Kind::SOURCE as u64;
}

#[derive(Drop)]
pub struct Properties {}

// How many properties section 10 has.
impl Properties {
    pub const NUMBER: u64 = 59;
}

// Of the task `n`.
fn of_task(f: &[u32], w: WaitTable, s: &[u32], n: u64, p: u64) -> Row
    ensures { OfKind task f.now w s.now n p result }
{
    if n >= u64::from(blocks::cell(f, Plan::TASKS)) || n >= Tasks::LIMIT as u64 {
        return row_shown::plain(Shown::NoRow);
    }
    task_rows::task_row(f, w, s, n as usize, p)
}

// Of the data item `n`.
fn of_item(f: &[u32], w: WaitTable, s: &[u32], n: u64, p: u64) -> Row
    ensures { OfKind data_item f.now w s.now n p result }
{
    if n >= u64::from(blocks::cell(f, Plan::ITEMS)) || n >= DataItems::LIMIT as u64 {
        return row_shown::plain(Shown::NoRow);
    }
    item_rows::item_row(f, s, n as usize, p)
}

// How many sources there are: those of the last task, and of all before it.
fn sources(f: &[u32]) -> u64
    ensures { result ≡ sources_in f.now }
{
    let last = blocks::cell(f, Plan::TASKS).saturating_sub(1) as usize;
    u64::from(blocks::cell(f, Plan::FIRST_SOURCE + last))
        + u64::from(blocks::cell(f, Plan::SOURCES + last))
}

// Of the source `n`.
fn of_source(f: &[u32], w: WaitTable, s: &[u32], n: u64, p: u64) -> Row
    ensures { OfKind source f.now w s.now n p result }
{
    if n >= sources(f) || n >= Sources::LIMIT as u64 {
        return row_shown::plain(Shown::NoRow);
    }
    source_rows::source_row(f, n as usize, p)
}

// Of the component `n` of a kind: no other kind has rows in the first edition.
fn of_kind(f: &[u32], w: WaitTable, s: &[u32], kind: u64, n: u64, p: u64) -> Row
    ensures { RowOf kind n p f.now w s.now result }
{
    match kind {
        Kind::TASK => of_task(f, w, s, n, p),
        Kind::DATA_ITEM => of_item(f, w, s, n, p),
        Kind::SOURCE => of_source(f, w, s, n, p),
        _ => row_shown::plain(Shown::NoRow),
    }
}

// Whether rows may be read: after an exception too.
fn readable(s: &[u32]) -> bool
    ensures { result ≡ loaded_f s.now }
{
    replying::loaded(s)
}

// Reads a row: refused with 7 where nothing is loaded.
pub fn read(
    plan: &[u32],
    waits: WaitTable,
    state: &[u32],
    kind: u64,
    number: u64,
    property: u64,
) -> Row
    ensures { ReadsRow kind number property plan.now waits state.now result }
{
    if !readable(state) {
        return row_shown::plain(Shown::Refused(Refusal::UNREADY));
    }
    if property >= Properties::NUMBER {
        return row_shown::plain(Shown::NoRow);
    }
    of_kind(plan, waits, state, kind, number, property)
}

// Giving a data item a value: NAME = VALUE.
ghost use Rattle.advise.specs.CallsTold.{CellsGiven, ValueGiven};

use crate::{kinds, past, refusals, slips};
use known_names::Sort;
use replying::Reply;
use sentences::write;
use state::Plan;
use typed_value::{Room, Typed};

// Why the data item does not take what was given.
fn misfit(rows: &[u32], texts: &[u8], plan: &[u32], d: usize, tags: &[u32]) {
    known_names::tell(rows, texts, plan, Sort::Item, d);
    write::text(b" takes ");
    kinds::declared(state::cell(plan, Plan::ITEM_TYPE, d));
    write::text(b"; it was given ");
    kinds::tell(tags);
    write::text(b".\n");
}

// A refusal, by its number.
fn refused(
    rows: &[u32],
    texts: &[u8],
    plan: &[u32],
    d: usize,
    tags: &[u32],
    numbers: &[i64],
    n: u8,
) {
    refusals::head(n);
    match n {
        6 => past::tell(tags, numbers),
        9 => misfit(rows, texts, plan, d, tags),
        _ => refusals::other(n),
    }
}

// Adds the value in the cells.
fn add(
    rows: &[u32],
    texts: &mut [u8],
    plan: &[u32],
    state: &mut [u32],
    d: usize,
    tags: &[u32],
    numbers: &[i64],
    bytes: &[u8],
)
    ensures { CellsGiven d tags.now numbers.now bytes.now texts.old plan.now state.old texts.new state.new }
{
    match adding::add(texts, plan, state, d as u64, tags, numbers, bytes) {
        Reply::Done => {
            known_names::tell(rows, texts, plan, Sort::Item, d);
            write::text(b" is set.\n");
        }
        Reply::Refused(n) => refused(rows, texts, plan, d, tags, numbers, n),
    }
}

// Gives the data item with the name the value that stands in the line from a place on.
pub fn give(
    line: &[u8],
    name: &[u8],
    from: usize,
    rows: &[u32],
    texts: &mut [u8],
    plan: &[u32],
    state: &mut [u32],
)
    ensures { ValueGiven line.now from rows.now plan.now name.now texts.old state.old texts.new state.new }
{
    let Some(d) = known_names::find(rows, texts, plan, Sort::Item, name) else {
        known_names::none(rows, texts, plan, Sort::Item, name);
        return;
    };
    let mut tags = [0u32; Room::CELLS];
    let mut numbers = [0i64; Room::CELLS];
    let mut bytes = [0u8; Room::BYTES];
    match typed_value::read(line, from, line.len(), &mut tags, &mut numbers, &mut bytes) {
        Typed::Value => add(rows, texts, plan, state, d, &tags, &numbers, &bytes),
        Typed::Wrong(slip, place) => slips::tell(slip, place),
    }
}

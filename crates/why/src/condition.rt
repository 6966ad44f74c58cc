// What a condition is made of: the data items that it names with their values, the tasks that it asks for with their states.
use crate::mentions;
use limits::{DataItems, Tasks};
use sentences::write;
use state::{Property, Values};
use tree::Tables;

// The cells of the values of all data items, and where the numbers of the states stand.
const VALUES: usize = Values::CELLS * DataItems::LIMIT;

const STATES: usize = Property::STATE as usize + Tasks::LIMIT;

// What stands before one: a colon before the first.
fn before(any: bool) {
    write::text(if any { b", " } else { b": " });
}

// The value of the data item `d`.
fn item(g: Tables, d: usize) {
    g.name_item(d);
    write::text(b" is ");
    let tags = truths::part(g.state, Values::TAGS, VALUES);
    let nums = truths::part(g.state, Values::NUMBERS, VALUES);
    worded::value(g.texts, evaluator::value(tags, nums, d));
}

// The data items that are named; whether there are any.
fn items(g: Tables, e: usize) -> bool {
    let m = mentions::items(g.parts, g.texts, g.plan, e);
    let mut any = false;
    for d in 0..DataItems::LIMIT {
        if m[d] {
            before(any);
            item(g, d);
            any = true;
        }
    }
    any
}

// The state of the task `t`.
fn task(g: Tables, t: usize) {
    g.name_task(t);
    write::text(b" is ");
    worded::state(state::cell(g.state, STATES, t));
}

// The tasks that are asked for, behind what was told before, if it was.
fn tasks(g: Tables, e: usize, told: bool) {
    let m = mentions::tasks(g.parts, g.texts, g.plan, e);
    let mut any = told;
    for t in 0..Tasks::LIMIT {
        if m[t] {
            before(any);
            task(g, t);
            any = true;
        }
    }
}

// The sentence on the expression that ends at `e`: `words`, and what it is made of now.
pub fn tell(g: Tables, words: &[u8], e: usize) {
    write::text(words);
    let any = items(g, e);
    tasks(g, e, any);
    write::text(b".\n");
}

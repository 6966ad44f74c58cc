// What a task in progress waits for before it is completed: 8.6.4, and 8.6.8 of a plan.
ghost use Rattle.std.specs.Prelude.{◌≡◌, ◌&&◌, not, ◌+◌, eqb};
ghost use Rattle.discards.specs.Twins.{ends_f};
ghost use Rattle.completes.specs.Twins.{answered_f, settled_f};
ghost use Rattle.waits.specs.Twins.{parent_at};

use crate::ahead::{Move, Review};
use crate::{ahead, condition};
use limits::{Marks, Sources, Tasks};
use sentences::write;
use state::{Class, Plan, Property, Requested, State, Tag};
use tree::Tables;
use waits::mark;

const STATES: usize = Property::STATE as usize + Tasks::LIMIT;

// 2, of one source: whether it is mandatory and its data item is still asked for.
fn is_open(plan: &[u32], state: &[u32], k: usize) -> bool
    ensures { result ≡ not (answered_f state.now plan.now k) }
{
    let free = state::cell(plan, Plan::MANDATORY, k) != 1;
    let d = state::cell(plan, Plan::SOURCE_ITEM, k);
    let told = state::cell(state, Requested::TAGS, d) == Tag::TRUTH
        && state::cell(state, Requested::NUMBERS, d) == 0;
    !(free || told)
}

// 2: the mandatory sources whose data items are still asked for.
fn sources(g: Tables, t: usize) {
    let first = state::cell(g.plan, Plan::FIRST_SOURCE, t);
    let count = state::cell(g.plan, Plan::SOURCES, t);
    for k in 0..Sources::LIMIT {
        if worded::is_among(first, count, k) && is_open(g.plan, g.state, k) {
            let d = state::cell(g.plan, Plan::SOURCE_ITEM, k);
            write::text(b"  It waits for a value of ");
            g.name_item(d);
            write::text(b" (");
            worded::declared(state::cell(g.plan, Plan::ITEM_TYPE, d));
            write::text(b"), which is mandatory.\n");
        }
    }
}

// 5b: whether a component is over, and neither is to start again nor changes in the next cycle.
fn settled(state: &[u32], starts: Marks, discards: Marks, initialises: Marks, c: usize) -> bool
    ensures { result ≡ settled_f state.now starts discards initialises c }
{
    let done = state::row_is(state, Property::STATE, c, Tag::STATE, State::COMPLETED);
    let dropped = state::row_is(state, Property::STATE, c, Tag::STATE, State::DISCARDED);
    let runs = state::row_is(state, Property::STATE, c, Tag::STATE, State::IN_PROGRESS);
    let timed = waits::timed(state, c);
    let still = (done || dropped) && !runs && !timed;
    still && !mark(starts, c) && !mark(discards, c) && !mark(initialises, c)
}

// What a component does in the next cycle, or is.
fn doing(g: Tables, m: Move, c: usize) {
    match m {
        Move::Initialise => write::text(b", which the next cycle initialises.\n"),
        Move::Start => write::text(b", which the next cycle starts.\n"),
        Move::Discard => write::text(b", which the next cycle discards.\n"),
        Move::Complete => write::text(b", which the next cycle completes.\n"),
        Move::Nothing => {
            write::text(b", which is ");
            worded::state(state::cell(g.state, STATES, c));
            write::text(b".\n");
        }
    }
}

// Whether `c` is a component of the plan `t`.
fn is_component(plan: &[u32], t: usize, c: usize) -> bool
    ensures { result ≡ eqb (parent_at plan.now c) (t + 1) }
{
    let x = state::cell(plan, Plan::PARENT, c);
    0 < x && x - 1 == t
}

// 5, of the task `c`, if it is a component of the plan that is not settled.
fn component(g: Tables, n: Review, t: usize, c: usize) {
    if is_component(g.plan, t, c) && !settled(g.state, n.starts, n.discards, n.initialises, c) {
        write::text(b"  It waits for its component ");
        g.name_task(c);
        doing(g, ahead::ahead(n, c), c);
    }
}

// 8.6.8, 2, of the task `c`, if it is a component that ends the plan.
fn terminal(g: Tables, t: usize, c: usize) {
    if is_component(g.plan, t, c) && is_last(g.plan, g.state, c) {
        write::text(b"  It terminates: its terminal component ");
        g.name_task(c);
        write::text(b" is completed.\n");
    }
}

// Whether a task is terminal and completed.
fn is_last(plan: &[u32], state: &[u32], c: usize) -> bool
    ensures { result ≡ ends_f state.now plan.now c }
{
    let done = state::row_is(state, Property::STATE, c, Tag::STATE, State::COMPLETED);
    done && state::cell(plan, Plan::TERMINAL, c) == 1
}

fn components(g: Tables, n: Review, t: usize) {
    for c in 0..Tasks::LIMIT {
        component(g, n, t, c);
        terminal(g, t, c);
    }
}

// 8.6.8, 1: the terminate condition, if there is one; `ends` says whether it is true.
fn terminate(g: Tables, ends: bool, t: usize) {
    let e = state::cell(g.plan, Plan::TERMINATE, t);
    if e == 0 {
        return;
    }
    if ends {
        condition::tell(g, b"  Its terminate condition is true", e);
    } else {
        condition::tell(g, b"  Its terminate condition is not true", e);
    }
}

pub fn tell(g: Tables, n: Review, t: usize) {
    sources(g, t);
    if tree::is_waiting(g.plan, g.state, t) {
        write::text(b"  It waits to be confirmed.\n");
    }
    if state::cell(g.plan, Plan::CLASS, t) == Class::PLAN {
        components(g, n, t);
        terminate(g, mark(n.ends, t), t);
    }
}

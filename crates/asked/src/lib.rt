// What an enquiry in progress waits for: the data items of its mandatory sources, as long as they are requested.
#![tactic(auto)]

ghost use Rattle.std.specs.Prelude.{◌≡◌, ◌<◌};
ghost use Rattle.asked.specs.Asked as asked;

use limits::{Sources, Tasks};
use state::{Class, Plan, Property, Requested, State, Tag, cell, row_is};

// The mandatory row that is true.
const YES: usize = 1;

fn is_requested(state: &[u32], d: usize) -> bool
    ensures { result ≡ asked.requested state.now d }
{
    cell(state, Requested::TAGS, d) == Tag::TRUTH && cell(state, Requested::NUMBERS, d) == 1
}

// Whether the task `t` is an enquiry in progress.
fn is_asking(plan: &[u32], state: &[u32], t: usize) -> bool
    ensures { result ≡ asked.asking plan.now state.now t }
{
    cell(plan, Plan::CLASS, t) == Class::ENQUIRY
        && row_is(state, Property::STATE, t, Tag::STATE, State::IN_PROGRESS)
}

// The number of a source, within its limit.
fn bounded(n: usize) -> usize
    ensures { (result < 128) × (result ≡ asked.bounded n) }
{
    if n < Sources::LIMIT { n } else { 0 }
}

// Whether the source `k` behind the source `first` is a mandatory one for the data item.
fn is_source(plan: &[u32], first: usize, k: usize, d: usize) -> bool
    requires { first < 128 }
    ensures { result ≡ asked.source_of plan.now first d k }
{
    cell(plan, Plan::MANDATORY + first, k) == YES && cell(plan, Plan::SOURCE_ITEM + first, k) == d
}

// Whether the task `t` has such a source.
#[tactic(auto, using(crate::specs::AskedLaws::any_past, crate::specs::AskedLaws::any_here, crate::specs::AskedLaws::any_later, crate::specs::AskedLaws::any_all))]
fn has_source(plan: &[u32], t: usize, d: usize) -> bool
    ensures { result ≡ asked.has_source plan.now d t }
{
    let first = bounded(cell(plan, Plan::FIRST_SOURCE, t));
    let n = cell(plan, Plan::SOURCES, t);
    for k in 0..n {
        if is_source(plan, first, k, d) {
            return true;
        }
    }
    false
}

fn waits_for(plan: &[u32], state: &[u32], t: usize, d: usize) -> bool
    ensures { result ≡ asked.waits_for plan.now state.now d t }
{
    is_asking(plan, state, t) && has_source(plan, t, d)
}

// Whether any task waits for it.
#[tactic(auto, using(crate::specs::AskedLaws::any_past, crate::specs::AskedLaws::any_here, crate::specs::AskedLaws::any_later, crate::specs::AskedLaws::any_all))]
fn by_any(plan: &[u32], state: &[u32], d: usize) -> bool
    ensures { result ≡ asked.by_any plan.now state.now d }
{
    for t in 0..Tasks::LIMIT {
        if waits_for(plan, state, t, d) {
            return true;
        }
    }
    false
}

// Whether an enquiry waits for the data item `d`.
pub fn is_asked(plan: &[u32], state: &[u32], d: usize) -> bool
    ensures { result ≡ asked.asked plan.now state.now d }
{
    is_requested(state, d) && by_any(plan, state, d)
}

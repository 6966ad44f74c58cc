// What the next cycle does, by the conditions of 8.6 as the review decides them.
ghost use Rattle.std.specs.Prelude.{◌≡◌};
ghost use Rattle.waits.specs.Twins.{marked};
ghost use Rattle.why.specs.Ahead.{move_f, Ahead};

use limits::{Marks, WaitTable};
use state::Plan;

// Where the engine time stands in the state table.
const TIME: usize = 2;

// Of every task: whether its precondition and its wait_condition, if there, are true, and its terminate expression is there and true;
// whether its plan terminates, and which of the four conditions of the review hold.
#[derive(Clone, Copy)]
pub struct Review {
    pub pre: Marks,
    pub wait: Marks,
    pub ends: Marks,
    pub starts: Marks,
    pub initialises: Marks,
    pub ended: Marks,
    pub discards: Marks,
    pub completes: Marks,
}

pub fn next(parts: &[u32], texts: &[u8], plan: &[u32], waits: WaitTable, state: &[u32]) -> Review
    ensures { Ahead parts.now texts.now plan.now waits state.now result }
{
    let pre = truths::all_allowed(parts, texts, plan, state, Plan::PRECONDITION);
    let wait = truths::all_allowed(parts, texts, plan, state, Plan::WAIT_CONDITION);
    let ends = truths::all_ended(parts, texts, plan, state, Plan::TERMINATE);
    let clock = parts::number(state, TIME);
    let starts = passes::starts(state, plan, waits, pre, wait, clock);
    let initialises = passes::initialises(state, plan, starts);
    let ended = passes::terminated(state, plan, ends);
    let discards = passes::discarded(state, plan, waits, pre, wait, ended);
    let completes = passes::completed(state, plan, starts, discards, initialises);
    Review {
        pre,
        wait,
        ends,
        starts,
        initialises,
        ended,
        discards,
        completes,
    }
}

// What the review performs.
#[derive(Clone, Copy, PartialEq, Eq)]
pub enum Move {
    Initialise,
    Start,
    Discard,
    Complete,
    Nothing,
}

// 8.5.1: the first of the four whose condition holds.
fn first(initialises: bool, starts: bool, discards: bool, completes: bool) -> Move
    ensures { result ≡ move_f initialises starts discards completes }
{
    if initialises {
        Move::Initialise
    } else if starts {
        Move::Start
    } else if discards {
        Move::Discard
    } else if completes {
        Move::Complete
    } else {
        Move::Nothing
    }
}

// What the next cycle does with the task `t`.
pub fn ahead(n: Review, t: usize) -> Move
    ensures { result ≡ move_f (marked n.initialises t) (marked n.starts t) (marked n.discards t) (marked n.completes t) }
{
    first(
        waits::mark(n.initialises, t),
        waits::mark(n.starts, t),
        waits::mark(n.discards, t),
        waits::mark(n.completes, t),
    )
}

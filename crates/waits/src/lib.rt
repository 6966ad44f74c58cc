// The tasks that a task waits for, and marks of tasks.
#![tactic(auto)]

ghost use Rattle.std.specs.Prelude.{◌≡◌, Bool, ◌&&◌, ◌||◌};
ghost use Rattle.waits.specs.Twins.{ended_f, timed_f, marked};
ghost use Rattle.waits.specs.Antecedents.{Noted, Upto};

use limits::{Marks, Tasks};
use state::{Property, StartAt, State, Tag};

pub fn both(a: bool, b: bool) -> bool
    ensures { result ≡ (a && b) }
{
    a && b
}

pub fn either(a: bool, b: bool) -> bool
    ensures { result ≡ (a || b) }
{
    a || b
}

// Whether start_at holds a time.
pub fn timed(s: &[u32], t: usize) -> bool
    ensures { result ≡ timed_f s.now t }
{
    state::cell(s, StartAt::TAGS, t) == Tag::TIME
}

// Whether the task is completed or discarded, and not to start again.
pub fn ended(s: &[u32], t: usize) -> bool
    ensures { result ≡ ended_f s.now t }
{
    let done = state::row_is(s, Property::STATE, t, Tag::STATE, State::COMPLETED);
    let dropped = state::row_is(s, Property::STATE, t, Tag::STATE, State::DISCARDED);
    (done || dropped) && !timed(s, t)
}

// Of the tasks that a task waits for: whether there is one, whether all are over, one is completed, all are discarded.
#[derive(Clone, Copy)]
pub struct Before {
    pub any: bool,
    pub over: bool,
    pub completed: bool,
    pub discarded: bool,
}

// With one task more, if it is waited for.
fn noted(s: &[u32], waits: bool, a: usize, b: Before) -> Before
    ensures { Noted s.now waits a b result }
{
    let done = state::row_is(s, Property::STATE, a, Tag::STATE, State::COMPLETED);
    let dropped = state::row_is(s, Property::STATE, a, Tag::STATE, State::DISCARDED);
    Before {
        any: b.any || waits,
        over: b.over && (!waits || ended(s, a)),
        completed: b.completed || (waits && done),
        discarded: b.discarded && (!waits || dropped),
    }
}

// Of all tasks.
pub fn antecedents(s: &[u32], row: Marks) -> Before
    ensures { Upto s.now row 32 result }
{
    let mut b = Before {
        any: false,
        over: true,
        completed: false,
        discarded: true,
    };
    for (a, waits) in row.iter().enumerate() {
        b = noted(s, *waits, a, b);
    }
    b
}

// The mark of a task.
pub fn mark(m: Marks, t: usize) -> bool
    ensures { result ≡ marked m t }
{
    t < Tasks::LIMIT && m[t]
}

// 8.6.8 and 8.6.3: which plans terminate, and which tasks are discarded.
#![tactic(auto)]

ghost use Rattle.std.specs.Prelude.{◌≡◌, Bool, ◌&&◌, ◌||◌, not, ◌-◌, eqb};
ghost use Rattle.waits.specs.Twins.{marked};
ghost use Rattle.marks.specs.Raise.{Below};
ghost use Rattle.discards.specs.Twins.{ends_f, discardable_f, unwanted_case, own_case, under_f, discard_f};

use limits::{Marks, Tasks};
use state::{Plan, Property, State, Tag};
use waits::Before;

// Whether a task is terminal and completed, so that its plan terminates.
fn ends(s: &[u32], f: &[u32], t: usize) -> bool
    ensures { result ≡ ends_f s.now f.now t }
{
    let done = state::row_is(s, Property::STATE, t, Tag::STATE, State::COMPLETED);
    done && state::cell(f, Plan::TERMINAL, t) == 1
}

// 8.6.8, 2: the plans that a terminal task ends.
pub fn ended_plans(s: &[u32], f: &[u32]) -> Marks
    ensures { Below f.now (ends_f s.now f.now) 32 result }
{
    let mut m = [false; Tasks::LIMIT];
    for t in 0..Tasks::LIMIT {
        marks::raise(&mut m, state::cell(f, Plan::PARENT, t), ends(s, f, t));
    }
    m
}

// 8.6.3, 1a.
fn discardable(s: &[u32], t: usize) -> bool
    ensures { result ≡ discardable_f s.now t }
{
    let runs = state::row_is(s, Property::STATE, t, Tag::STATE, State::IN_PROGRESS);
    let waiting = state::row_is(s, Property::STATE, t, Tag::STATE, State::DORMANT);
    let done = state::row_is(s, Property::STATE, t, Tag::STATE, State::COMPLETED);
    runs || waiting || (done && waits::timed(s, t))
}

// 8.6.3, 2c: all tasks that it waits for are discarded, or the precondition is not true.
fn unwanted(b: Before, pre: bool) -> bool
    ensures { result ≡ unwanted_case b.any b.discarded pre }
{
    (b.any && b.discarded) || !pre
}

// 8.6.3, 2.
fn own(s: &[u32], f: &[u32], b: Before, pre: bool, wait: bool, t: usize) -> bool
    ensures { result ≡ own_case s.now f.now b.any b.over b.discarded pre wait t }
{
    conditions::parent_runs(s, f, t)
        && state::row_is(s, Property::STATE, t, Tag::STATE, State::DORMANT)
        && conditions::schedule(b, wait)
        && unwanted(b, pre)
}

// 8.6.3, 1: the parent, if any, is in progress and discarded or terminated.
fn under(s: &[u32], ended: Marks, m: Marks, x: usize, t: usize) -> bool
    ensures { result ≡ under_f s.now ended m x t }
{
    x != 0
        && state::row_is(s, Property::STATE, x - 1, Tag::STATE, State::IN_PROGRESS)
        && discardable(s, t)
        && (waits::mark(m, x - 1) || waits::mark(ended, x - 1))
}

// 8.6.3 for a task whose parent has its marks; `ended` marks the plans that terminate, `m` the tasks that are discarded.
pub fn discard_one(
    s: &[u32],
    f: &[u32],
    row: Marks,
    pre: bool,
    wait: bool,
    ended: Marks,
    m: Marks,
    t: usize,
) -> bool
    ensures { result ≡ discard_f s.now f.now row pre wait ended m t }
{
    let b = waits::antecedents(s, row);
    own(s, f, b, pre, wait, t) || under(s, ended, m, state::cell(f, Plan::PARENT, t), t)
}

// 8.6.4: which tasks are completed.
#![tactic(auto)]

ghost use Rattle.std.specs.Prelude.{◌≡◌, Bool, ◌&&◌, ◌||◌, not, ℕ, ◌+◌, ◌<◌};
ghost use Rattle.waits.specs.Twins.{marked};
ghost use Rattle.waits.specs.Booleans.{all_f};
ghost use Rattle.marks.specs.Raise.{Below};
ghost use Rattle.completes.specs.Twins.{still_f, idle_f, settled_f, answered_f, confirmed_case, complete_f};

use limits::{Marks, Tasks};
use state::{Class, Plan, Property, Requested, State, Tag};

// 5b, i, ii and vi: a task that is over and is not to start again.
fn still(s: &[u32], t: usize) -> bool
    ensures { result ≡ still_f s.now t }
{
    let done = state::row_is(s, Property::STATE, t, Tag::STATE, State::COMPLETED);
    let dropped = state::row_is(s, Property::STATE, t, Tag::STATE, State::DISCARDED);
    let runs = state::row_is(s, Property::STATE, t, Tag::STATE, State::IN_PROGRESS);
    (done || dropped) && !runs && !waits::timed(s, t)
}

// 5b, iii to v: a task that is not to change now.
fn idle(starts: Marks, discards: Marks, initialises: Marks, t: usize) -> bool
    ensures { result ≡ idle_f starts discards initialises t }
{
    !waits::mark(starts, t) && !waits::mark(discards, t) && !waits::mark(initialises, t)
}

fn settled(s: &[u32], starts: Marks, discards: Marks, initialises: Marks, t: usize) -> bool
    ensures { result ≡ settled_f s.now starts discards initialises t }
{
    still(s, t) && idle(starts, discards, initialises, t)
}

// 5: the plans of which a component is not settled.
pub fn unsettled(s: &[u32], f: &[u32], starts: Marks, discards: Marks, initialises: Marks) -> Marks
    ensures { Below f.now (λ C. not (settled_f s.now starts discards initialises C)) 32 result }
{
    let mut m = [false; Tasks::LIMIT];
    for t in 0..Tasks::LIMIT {
        let v = settled(s, starts, discards, initialises, t);
        marks::raise(&mut m, state::cell(f, Plan::PARENT, t), !v);
    }
    m
}

// 2, of one source: if it is mandatory, its data item is not requested any more.
fn answered(s: &[u32], f: &[u32], k: usize) -> bool
    ensures { result ≡ answered_f s.now f.now k }
{
    let free = state::cell(f, Plan::MANDATORY, k) != 1;
    let d = state::cell(f, Plan::SOURCE_ITEM, k);
    free || (state::cell(s, Requested::TAGS, d) == Tag::TRUTH
        && state::cell(s, Requested::NUMBERS, d) == 0)
}

// 2, of `count` sources from the one with the number `first` on.
fn all_answered(s: &[u32], f: &[u32], first: u32, count: u32) -> bool
    ensures { result ≡ all_f (λ i. answered_f s.now f.now (first + i)) count }
{
    (0..count as usize).all(|i| answered(s, f, first as usize + i))
}

// 3: confirmed, if it has to be.
fn confirmed(s: &[u32], f: &[u32], t: usize) -> bool
    ensures { result ≡ confirmed_case s.now f.now t }
{
    let free = state::cell(f, Plan::CONFIRMATORY, t) != 1;
    free || state::row_is(s, Property::CONFIRMED, t, Tag::TRUTH, 1)
}

// 8.6.4, where `pending` marks the plans of which a component is not settled.
pub fn complete_one(s: &[u32], f: &[u32], pending: Marks, t: usize) -> bool
    requires { t < 32 }
    ensures { result ≡ complete_f s.now f.now pending t }
{
    state::row_is(s, Property::STATE, t, Tag::STATE, State::IN_PROGRESS)
        && all_answered(
            s,
            f,
            blocks::cell(f, Plan::FIRST_SOURCE + t),
            blocks::cell(f, Plan::SOURCES + t),
        )
        && confirmed(s, f, t)
        && (state::cell(f, Plan::CLASS, t) != Class::PLAN || !waits::mark(pending, t))
}

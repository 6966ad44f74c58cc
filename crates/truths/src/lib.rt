// The expressions of tasks, by the evaluator: conditions, and assigned values.
#![tactic(auto)]

ghost use Rattle.std.specs.Prelude.{◌≡◌};
ghost use Rattle.truths.specs.Part.{part_of, shown_by};
ghost use Rattle.parts.specs.Part.{table};
ghost use Rattle.evaluator.specs.Published.{Published};
ghost use Rattle.paper_guideline.specs.Limits.{depth_limit};
ghost use Rattle.truths.specs.Truth.{TruthOf, HeldOf, AllHeld, AllAllowed, AllEnded};

use limits::{Expression, Marks, Tasks};
use state::{Plan, Property, Values};
use std::array;
use values::Value;

// Where the states of the tasks stand: the numbers of their property.
const STATES: usize = Property::STATE as usize + Tasks::LIMIT;

// The `n` cells from `a` on: what there is of them.
pub fn part(s: &[u32], a: usize, n: usize) -> &[u32]
    ensures { result.now ≡ part_of s.now a n }
{
    let from = a.min(s.len());
    let count = n.min(s.len() - from);
    &s[from..from + count]
}

// The value of the expression whose parts end before `end`, for the task: `x` are the parts, `f` is what load worked out, `s` the state.
pub fn value_at(x: &[u32], b: &[u8], f: &[u32], s: &[u32], task: usize, end: usize) -> Value
    ensures { Published (table x.now b.now) (shown_by f.now s.now) task end depth_limit result }
{
    let names = part(f, Plan::ITEM_NAME, parts::number(f, Plan::ITEMS));
    let tags = part(s, Values::TAGS, Values::ALL);
    let nums = part(s, Values::NUMBERS, Values::ALL);
    let tasks = part(f, Plan::TASK_NAME, parts::number(f, Plan::TASKS));
    let states = part(s, STATES, Tasks::LIMIT);
    evaluator::value_of(
        x,
        b,
        names,
        tags,
        nums,
        tasks,
        states,
        task,
        end,
        Expression::DEPTH,
    )
}

// Whether it is true.
fn truth_of(x: &[u32], b: &[u8], f: &[u32], s: &[u32], task: usize, end: usize) -> bool
    ensures { TruthOf (table x.now b.now) (shown_by f.now s.now) task end result }
{
    operators::is_true(values::scalar_of(value_at(x, b, f, s, task, end)))
}

// Whether it is true; `none` where there is none.
fn held(x: &[u32], b: &[u8], f: &[u32], s: &[u32], task: usize, end: usize, none: bool) -> bool
    ensures { HeldOf none (table x.now b.now) (shown_by f.now s.now) task end result }
{
    if end == 0 {
        none
    } else {
        truth_of(x, b, f, s, task, end)
    }
}

// The same of every task, where `ends` is the column of `f` that says where the expressions end.
fn all_held(x: &[u32], b: &[u8], f: &[u32], s: &[u32], ends: usize, none: bool) -> Marks
    ensures { AllHeld none (table x.now b.now) (shown_by f.now s.now) f.now ends result }
{
    array::from_fn(|t| held(x, b, f, s, t, state::cell(f, ends, t), none))
}

// Of every task: whether the expression is true, if there is one.
pub fn all_allowed(x: &[u32], b: &[u8], f: &[u32], s: &[u32], ends: usize) -> Marks
    ensures { AllAllowed (table x.now b.now) (shown_by f.now s.now) f.now ends result }
{
    all_held(x, b, f, s, ends, true)
}

// Of every task: whether there is one and it is true.
pub fn all_ended(x: &[u32], b: &[u8], f: &[u32], s: &[u32], ends: usize) -> Marks
    ensures { AllEnded (table x.now b.now) (shown_by f.now s.now) f.now ends result }
{
    all_held(x, b, f, s, ends, false)
}

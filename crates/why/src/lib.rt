// Why a task is where it is, in words on standard output: condition by condition, decided by the functions that the engine runs by.
// Nothing is asked of the tables: on any contents it ends and does nothing undefined.
#![tactic(auto)]

mod ahead;
mod condition;
mod dormant;
mod leaving;
mod mentions;
mod running;

ghost use Rattle.std.specs.Prelude.{◌≡◌, false, ◌-◌, ◌<◌};
ghost use Rattle.waits.specs.Twins.{marked};

use ahead::{Move, Review};
use limits::{Marks, Tasks, WaitTable};
use sentences::write;
use state::{Plan, Property, State, Tag};
use tree::Tables;
use waits::mark;

// Where the Exception flag stands in the state table, and the numbers of the states.
const FLAG: usize = 1;

const STATES: usize = Property::STATE as usize + Tasks::LIMIT;

// Since when, if the row of the property that begins at `p` holds a time.
fn since(state: &[u32], p: u16, t: usize) {
    let q = usize::from(p);
    if state::cell(state, q, t) == Tag::TIME {
        write::text(b" since engine time ");
        write::number(state::cell(state, q + Tasks::LIMIT, t));
    }
}

// The time of the state with the number `n`; a dormant task has none.
fn time(state: &[u32], n: usize, t: usize) {
    match n {
        State::IN_PROGRESS => since(state, Property::IN_PROGRESS_TIME, t),
        State::DISCARDED => since(state, Property::DISCARDED_TIME, t),
        State::COMPLETED => since(state, Property::COMPLETED_TIME, t),
        _ => {}
    }
}

// The task and its state.
fn head(g: Tables, t: usize) {
    let n = state::cell(g.state, STATES, t);
    g.name_task(t);
    write::text(b" is ");
    worded::state(n);
    time(g.state, n, t);
    write::text(b".\n");
}

// A mark of a task's plan, where `x` is the plan and one.
fn of_plan(marks: Marks, x: usize) -> bool
    ensures { (x ≡ 0 → result ≡ false) × (0 < x → result ≡ marked marks (x - 1)) }
{
    0 < x && mark(marks, x - 1)
}

// A task that the next cycle leaves as it is: what it waits for.
fn stays(g: Tables, waits: WaitTable, n: Review, t: usize) {
    match state::cell(g.state, STATES, t) {
        State::DORMANT => dormant::tell(g, waits, mark(n.pre, t), mark(n.wait, t), t),
        State::IN_PROGRESS => running::tell(g, n, t),
        _ => {}
    }
}

// What initialises the task.
fn initialised(g: Tables, n: Review, t: usize) {
    let x = state::cell(g.plan, Plan::PARENT, t);
    leaving::initialised(g, of_plan(n.starts, x), of_plan(n.initialises, x), t);
}

// What discards the task.
fn discarded(g: Tables, waits: WaitTable, n: Review, t: usize) {
    let x = state::cell(g.plan, Plan::PARENT, t);
    let discards = of_plan(n.discards, x);
    let ends = of_plan(n.ended, x);
    leaving::discarded(g, waits, mark(n.pre, t), mark(n.wait, t), discards, ends, t);
}

// What the next cycle does with the task, and why; or what it waits for.
fn moves(g: Tables, waits: WaitTable, t: usize) {
    let n = ahead::next(g.parts, g.texts, g.plan, waits, g.state);
    match ahead::ahead(n, t) {
        Move::Initialise => initialised(g, n, t),
        Move::Start => leaving::started(g, t),
        Move::Discard => discarded(g, waits, n, t),
        Move::Complete => write::text(b"  The next cycle completes it.\n"),
        Move::Nothing => stays(g, waits, n, t),
    }
}

// Why the task `t` is where it is.
pub fn tell(g: Tables, waits: WaitTable, t: usize) {
    if parts::number(g.plan, Plan::TASKS) <= t {
        return;
    }
    head(g, t);
    if parts::number(g.state, FLAG) == 1 {
        write::text(b"  The Exception flag is set: no task moves any more.\n");
    } else {
        moves(g, waits, t);
    }
}

// What a dormant task waits for before it starts: 8.6.2, 8.6.5 and 8.6.6.
use crate::condition;
use limits::{Marks, Tasks, WaitTable};
use sentences::{slips, write};
use state::{Plan, Property};
use tree::Tables;
use waits::ended;

const STATES: usize = Property::STATE as usize + Tasks::LIMIT;

// The task `a`, and its state.
fn which(g: Tables, a: usize) {
    g.name_task(a);
    write::text(b", which is ");
    worded::state(state::cell(g.state, STATES, a));
    write::text(b".\n");
}

// The parent is not in progress; `x` is the parent and one.
fn parent(g: Tables, x: usize) {
    if 0 < x {
        write::text(b"  It waits for its plan ");
        which(g, x - 1);
    }
}

// 8.6.6, 1: the tasks that it waits for, of those that are not over.
fn antecedents(g: Tables, row: Marks) {
    for a in 0..Tasks::LIMIT {
        if row[a] && !ended(g.state, a) {
            write::text(b"  It waits for ");
            which(g, a);
        }
    }
}

// 8.6.6, 2, and 8.6.5, 4: the conditions that are not true.
fn untrue(g: Tables, pre: bool, wait: bool, t: usize) {
    if !wait {
        let e = state::cell(g.plan, Plan::WAIT_CONDITION, t);
        condition::tell(g, b"  Its wait_condition is not true", e);
    }
    if !pre {
        let e = state::cell(g.plan, Plan::PRECONDITION, t);
        condition::tell(g, b"  Its precondition is not true", e);
    }
}

// A task with a trigger starts by that alone.
fn trigger(g: Tables, t: usize) {
    write::text(b"  It waits for its trigger ");
    slips::name(g.texts, state::cell(g.plan, Plan::TRIGGER, t));
    write::text(b".\n");
}

pub fn tell(g: Tables, waits: WaitTable, pre: bool, wait: bool, t: usize) {
    if !conditions::parent_runs(g.state, g.plan, t) {
        parent(g, state::cell(g.plan, Plan::PARENT, t));
    } else if state::cell(g.plan, Plan::TRIGGERED, t) == 1 {
        trigger(g, t);
    } else if t < Tasks::LIMIT {
        antecedents(g, waits[t]);
        untrue(g, pre, wait, t);
    }
}

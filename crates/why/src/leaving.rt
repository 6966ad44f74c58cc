// Why the next cycle initialises, starts or discards a task: 8.6.1, 8.6.2, 8.6.3.
ghost use Rattle.std.specs.Prelude.{◌≡◌, ◌&&◌};
ghost use Rattle.state.specs.Layout.{row_is_fn};
ghost use Rattle.waits.specs.Twins.{parent_f};

use crate::condition;
use limits::{Tasks, WaitTable};
use sentences::{slips, write};
use state::{Plan, Property, State, Tag};
use tree::Tables;
use waits::Before;

// That its trigger was sent.
fn by_trigger(g: Tables, t: usize) {
    write::text(b": its trigger ");
    slips::name(g.texts, state::cell(g.plan, Plan::TRIGGER, t));
    write::text(b" was sent.\n");
}

// What its plan `p` does: behind `words`, as a reason or a sentence.
fn its_plan(g: Tables, words: &[u8], p: usize, does: &[u8]) {
    write::text(words);
    g.name_task(p);
    write::text(does);
}

// 8.6.1: its plan starts or is initialised, or else it is completed and was triggered.
pub fn initialised(g: Tables, starts: bool, initialises: bool, t: usize) {
    write::text(b"  The next cycle initialises it");
    let x = state::cell(g.plan, Plan::PARENT, t);
    if 0 < x && starts {
        its_plan(g, b": its plan ", x - 1, b" starts.\n");
    } else if 0 < x && initialises {
        its_plan(g, b": its plan ", x - 1, b" is initialised.\n");
    } else {
        by_trigger(g, t);
    }
}

// 8.6.2: by a trigger, or as scheduled.
pub fn started(g: Tables, t: usize) {
    write::text(b"  The next cycle starts it");
    if state::row_is(g.state, Property::TRIGGER_ACTIVE, t, Tag::TRUTH, 1) {
        by_trigger(g, t);
    } else {
        write::text(b".\n");
    }
}

// 8.6.3, 2, up to its last line: dormant, scheduled, its plan in progress.
fn is_due(plan: &[u32], state: &[u32], b: Before, wait: bool, t: usize) -> bool
    ensures { result ≡ (parent_f state.now plan.now t && (row_is_fn state.now 8 t 5 1 && (b.over && wait))) }
{
    let dormant = state::row_is(state, Property::STATE, t, Tag::STATE, State::DORMANT);
    conditions::parent_runs(state, plan, t) && dormant && conditions::schedule(b, wait)
}

// 8.6.3, 2c: all tasks that it waits for are discarded, or the precondition is not true.
fn unwanted(g: Tables, b: Before, pre: bool, t: usize) {
    if b.any && b.discarded {
        write::text(b"  All tasks that it waits for are discarded.\n");
    }
    if !pre {
        let e = state::cell(g.plan, Plan::PRECONDITION, t);
        condition::tell(g, b"  Its precondition is not true", e);
    }
}

// 8.6.3, 1: its plan, in progress, is discarded or terminates; `x` is the plan and one.
fn under(g: Tables, discards: bool, ends: bool, x: usize) {
    if x == 0 {
        return;
    }
    let p = x - 1;
    if !state::row_is(g.state, Property::STATE, p, Tag::STATE, State::IN_PROGRESS) {
        return;
    }
    if discards {
        its_plan(g, b"  Its plan ", p, b" is discarded.\n");
    }
    if ends {
        its_plan(g, b"  Its plan ", p, b" terminates.\n");
    }
}

// `pre` and `wait`: whether its precondition and wait_condition are true; `discards` and `ends`: whether its plan is discarded, or terminates.
pub fn discarded(
    g: Tables,
    waits: WaitTable,
    pre: bool,
    wait: bool,
    discards: bool,
    ends: bool,
    t: usize,
) {
    if Tasks::LIMIT <= t {
        return;
    }
    write::text(b"  The next cycle discards it.\n");
    let b = waits::antecedents(g.state, waits[t]);
    if is_due(g.plan, g.state, b, wait, t) {
        unwanted(g, b, pre, t);
    }
    under(g, discards, ends, state::cell(g.plan, Plan::PARENT, t));
}

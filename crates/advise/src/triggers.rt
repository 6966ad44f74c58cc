// Sending a trigger.
ghost use Rattle.advise.specs.CallsTold.{TriggerSent};

use crate::refusals;
use known_names::Sort;
use replying::Reply;
use sentences::write;
use state::{Property, Tag};

// Whether the task waits to start by its trigger.
fn is_active(state: &[u32], t: usize) -> bool {
    state::row_is(state, Property::TRIGGER_ACTIVE, t, Tag::TRUTH, 1)
}

// What became of the task t, if it has the trigger; whether one had it by now.
fn tell(
    rows: &[u32],
    texts: &[u8],
    plan: &[u32],
    state: &[u32],
    name: &[u8],
    t: usize,
    any: bool,
) -> bool {
    if !known_names::is_trigger(texts, plan, name, t) {
        return any;
    }
    known_names::tell(rows, texts, plan, Sort::Task, t);
    if is_active(state, t) {
        write::text(b" is triggered.\n");
        return true;
    }
    write::text(b" is not triggered: its plan is not in progress.\n");
    true
}

// What became of every task that has the trigger; or that none has it.
fn sent(rows: &[u32], texts: &[u8], plan: &[u32], state: &[u32], name: &[u8]) {
    let mut any = false;
    for t in 0..known_names::count(plan, Sort::Task) {
        any = tell(rows, texts, plan, state, name, t, any);
    }
    if !any {
        known_names::none(rows, texts, plan, Sort::Trigger, name);
    }
}

// Sends the trigger with the name.
pub fn trigger(rows: &[u32], texts: &[u8], plan: &[u32], state: &mut [u32], name: &[u8])
    ensures { TriggerSent name.now texts.now plan.now state.old state.new }
{
    match triggering::trigger(texts, plan, state, name) {
        Reply::Done => sent(rows, texts, plan, state, name),
        Reply::Refused(n) => {
            refusals::head(n);
            if n == 6 {
                write::text(b"a trigger has at most 48 bytes, in plain ASCII.\n");
                return;
            }
            refusals::other(n);
        }
    }
}

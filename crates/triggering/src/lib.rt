// 8.3.7, SendTrigger.
#![tactic(auto)]

ghost use Rattle.std.specs.Prelude.{◌≡◌, ◌+◌, ◌<◌, eqb, get_or};
ghost use Rattle.paper_expressions.proofs.Laws.Search.{sameb};
ghost use Rattle.parts.specs.Texts.{text_at_fn};
ghost use Rattle.triggering.specs.Hit.{hit_f, step_f};
ghost use Rattle.triggering.specs.Trigger.{Triggers};

use limits::{Refusal, Tasks};
use parts::HANDLE;
use replying::Reply;
use state::{Plan, Property, State, Tag};

// Whether the text with the handle `h` is this one, byte for byte.
fn same_text(b: &[u8], h: usize, name: &[u8]) -> bool
    ensures { result ≡ sameb (text_at_fn b.now h) name.now }
{
    let p = h / HANDLE;
    if h % HANDLE != name.len() {
        return false;
    }
    for (k, x) in name.iter().enumerate() {
        if parts::names::at(b, p, k) != *x {
            return false;
        }
    }
    true
}

// Whether the trigger of the task `t` is the one that is sent, and its parent is in progress.
fn hit(f: &[u32], b: &[u8], s: &[u32], name: &[u8], t: usize) -> bool
    requires { t < 32 }
    ensures { result ≡ hit_f f.now b.now s.now name.now t }
{
    if parts::number(f, Plan::TRIGGERED + t) != 1 {
        return false;
    }
    match parts::number(f, Plan::PARENT + t) {
        p @ 1..=Tasks::LIMIT => {
            state::row_is(s, Property::STATE, p - 1, Tag::STATE, State::IN_PROGRESS)
                && same_text(b, parts::number(f, Plan::TRIGGER + t), name)
        }
        _ => false,
    }
}

// Sends the trigger to the task `t`.
fn step(f: &[u32], b: &[u8], s: &mut [u32], name: &[u8], t: usize)
    requires { t < 32 }
    ensures { s.new ≡ step_f f.now b.now s.old name.now t }
{
    if hit(f, b, s, name, t) {
        replying::make_true(s, Property::TRIGGER_ACTIVE, t);
    }
}

// Sends a trigger: refused with 7, or with 6 where its text is beyond the limits. One that no task has is done.
pub fn trigger(texts: &[u8], plan: &[u32], state: &mut [u32], name: &[u8]) -> Reply
    ensures { Triggers name.now texts.now plan.now state.old state.new result }
{
    if !replying::ready(state) {
        return Reply::Refused(Refusal::UNREADY);
    }
    if !given::small_text(name, 0, name.len()) {
        return Reply::Refused(Refusal::LIMIT);
    }
    for t in 0..Tasks::LIMIT {
        step(plan, texts, state, name, t);
    }
    Reply::Done
}

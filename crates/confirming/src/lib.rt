// 8.3.4, ConfirmTask.
#![tactic(auto)]

ghost use Rattle.confirming.specs.Confirm.{Confirms};

use limits::{Refusal, Tasks};
use replying::Reply;
use state::{Plan, Property};

const TASKS: u64 = Tasks::LIMIT as u64;

// Confirms a task, in whatever state it is: refused with 7, or with 8 where there is no such task.
pub fn confirm(plan: &[u32], state: &mut [u32], task: u64) -> Reply
    ensures { Confirms task plan.now state.old state.new result }
{
    if !replying::ready(state) {
        return Reply::Refused(Refusal::UNREADY);
    }
    let n = u64::from(blocks::cell(plan, Plan::TASKS));
    if task >= n || task >= TASKS {
        return Reply::Refused(Refusal::NO_SUCH);
    }
    replying::make_true(state, Property::CONFIRMED, task as usize);
    Reply::Done
}

// Confirming a task.
ghost use Rattle.advise.specs.CallsTold.{TaskConfirmed};

use crate::refusals;
use known_names::Sort;
use replying::Reply;
use sentences::write;

// Confirms the task with the name.
pub fn confirm(rows: &[u32], texts: &[u8], plan: &[u32], state: &mut [u32], name: &[u8])
    ensures { TaskConfirmed rows.now texts.now plan.now name.now state.old state.new }
{
    let Some(t) = known_names::find(rows, texts, plan, Sort::Task, name) else {
        known_names::none(rows, texts, plan, Sort::Task, name);
        return;
    };
    match confirming::confirm(plan, state, t as u64) {
        Reply::Done => {
            known_names::tell(rows, texts, plan, Sort::Task, t);
            write::text(b" is confirmed.\n");
        }
        Reply::Refused(n) => {
            refusals::head(n);
            refusals::other(n);
        }
    }
}

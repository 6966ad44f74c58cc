// The tree of tasks, and the tasks that wait to be confirmed.
ghost use Rattle.std.specs.Prelude.{◌≡◌, ◌&&◌, not};
ghost use Rattle.state.specs.Layout.{row_is_fn};
ghost use Rattle.completes.specs.Twins.{confirmed_case};

use crate::tables::Tables;
use crate::{each, walk};
use limits::Tasks;
use sentences::write;
use state::{Plan, Property, State, Tag};

// The tree begins with the root.
const ROOT: usize = 0;
// Where the numbers of the states stand.
const STATES: usize = Property::STATE as usize + Tasks::LIMIT;
// How far a component is set in.
const STEP: usize = 2;

// Whether the task is in progress, has to be confirmed by 8.6.4, 3, and is not.
pub fn is_waiting(plan: &[u32], state: &[u32], t: usize) -> bool
    ensures { result ≡ (row_is_fn state.now 8 t 5 2 && not (confirmed_case state.now plan.now t)) }
{
    let runs = state::row_is(state, Property::STATE, t, Tag::STATE, State::IN_PROGRESS);
    let free = state::cell(plan, Plan::CONFIRMATORY, t) != 1;
    let told = state::row_is(state, Property::CONFIRMED, t, Tag::TRUTH, 1);
    runs && !(free || told)
}

impl Tables<'_> {
    // The line of one task: its name, class, state and caption.
    fn tell_line(&self, t: usize) {
        write::blanks(walk::depth(self.plan, t) * STEP);
        self.name_task(t);
        write::text(b" (");
        worded::class(state::cell(self.plan, Plan::CLASS, t));
        write::text(b", ");
        worded::state(state::cell(self.state, STATES, t));
        write::text(b")");
        self.task_caption(t);
        write::text(b"\n");
    }

    // The tree of tasks, each component set in below its plan.
    pub fn show(&self) {
        let n = state::cell(self.plan, Plan::TASKS, 0);
        let mut next = Some(ROOT);
        for _turn in 0..Tasks::LIMIT {
            match next {
                Some(t) if t < n => {
                    self.tell_line(t);
                    next = walk::next(self.plan, t);
                }
                _ => return,
            }
        }
    }

    // The line of a task that waits, and whether it does.
    fn tell_waiting(&self, t: usize) -> bool {
        if !is_waiting(self.plan, self.state, t) {
            return false;
        }
        self.name_task(t);
        self.task_caption(t);
        write::text(b"\n");
        true
    }

    // The tasks that wait to be confirmed.
    pub fn waiting(&self) {
        each::or_none(
            Tasks::LIMIT,
            b"No task waits to be confirmed.\n",
            |t| self.tell_waiting(t),
        );
    }
}

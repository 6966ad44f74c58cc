// The data items that are asked for, each with the enquiries in progress that ask for it.
ghost use Rattle.std.specs.Prelude.{◌≡◌, ◌&&◌, ◌+◌, eqb, get_or};
ghost use Rattle.waits.specs.Twins.{first_at, count_at_fn, item_at};
ghost use Rattle.worded.specs.Among.{among_f};

use crate::each;
use crate::tables::Tables;
use limits::{DataItems, Sources, Tasks};
use sentences::write;
use state::{Plan, Property, Requested, State, Tag};

// Whether the row requested of the data item `d` is true.
pub fn is_asked(state: &[u32], d: usize) -> bool
    ensures { result ≡ (eqb (get_or state.now (648 + d) 0) 2 && eqb (get_or state.now (712 + d) 0) 1) }
{
    state::cell(state, Requested::TAGS, d) == Tag::TRUTH
        && state::cell(state, Requested::NUMBERS, d) == 1
}

// Whether the source `n` is one of the task `t`, and asks for the data item `d`.
fn is_source(plan: &[u32], t: usize, n: usize, d: usize) -> bool
    ensures { result ≡ (among_f (first_at plan.now t) (count_at_fn plan.now t) n && eqb (item_at plan.now n) d) }
{
    let first = state::cell(plan, Plan::FIRST_SOURCE, t);
    let count = state::cell(plan, Plan::SOURCES, t);
    worded::is_among(first, count, n) && state::cell(plan, Plan::SOURCE_ITEM, n) == d
}

impl Tables<'_> {
    // The line of the source `n` of the task `t`.
    fn tell_source(&self, n: usize, t: usize) {
        write::text(b"  for ");
        self.name_task(t);
        if state::cell(self.plan, Plan::MANDATORY, n) == 1 {
            write::text(b", mandatory");
        }
        self.source_caption(n, t);
        write::text(b"\n");
    }

    // The sources of the task `t` that ask for the data item `d`.
    fn tell_sources(&self, d: usize, t: usize) {
        for n in 0..Sources::LIMIT {
            if is_source(self.plan, t, n, d) {
                self.tell_source(n, t);
            }
        }
    }

    // The enquiries in progress that ask for the data item `d`.
    fn tell_enquiries(&self, d: usize) {
        for t in 0..Tasks::LIMIT {
            if state::row_is(
                self.state,
                Property::STATE,
                t,
                Tag::STATE,
                State::IN_PROGRESS,
            ) {
                self.tell_sources(d, t);
            }
        }
    }

    // The lines of the data item `d` if it is asked for, and whether it is.
    fn tell_asked(&self, d: usize) -> bool {
        if !is_asked(self.state, d) {
            return false;
        }
        self.name_item(d);
        write::text(b" (");
        worded::declared(state::cell(self.plan, Plan::ITEM_TYPE, d));
        write::text(b")");
        self.item_caption(d);
        write::text(b"\n");
        self.tell_enquiries(d);
        true
    }

    // The data items that are asked for, with type and caption.
    pub fn asked(&self) {
        each::or_none(
            DataItems::LIMIT,
            b"No data item is asked for.\n",
            |d| self.tell_asked(d),
        );
    }
}

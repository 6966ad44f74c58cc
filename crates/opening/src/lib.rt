// The state table that an accepted load leaves: every task is dormant, no data item has a value, the engine time is 0.
#![tactic(auto)]

ghost use Rattle.std.specs.Prelude.{◌≤◌, length};
ghost use Rattle.opening.specs.Opened.{Marks, Opens};

use limits::Tasks;
use state::{Header, Property, Table, Tag};

#[derive(Drop)]
pub struct State {}

impl State {
    // the least length of the table
    pub const LEAST: usize = Table::CELLS;

    // the tag of a row that is a state, and the number of `dormant`
    const TAG: u32 = Tag::STATE as u32;

    const DORMANT: u32 = state::State::DORMANT as u32;
}

// The row of the state of the task `t`.
fn dormant(s: &mut [u32], t: usize)
    ensures { Marks s.old t s.new }
{
    if t < Tasks::LIMIT && State::LEAST <= s.len() {
        let p = usize::from(Property::STATE) + t;
        s[p] = State::TAG;
        s[p + Tasks::LIMIT] = State::DORMANT;
    }
}

// Opens the table for a guideline of `n` tasks.
pub fn open(s: &mut [u32], n: usize)
    ensures { Opens s.old n s.new }
{
    blank::clear(s);
    if s.len() < State::LEAST {
        return;
    }
    s[Header::LOADED] = 1;
    for t in 0..n {
        dormant(s, t);
    }
}

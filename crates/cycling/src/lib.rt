// 8.6.7, CycleConditions.
#![tactic(auto)]

ghost use Rattle.std.specs.Prelude.{◌≡◌};
ghost use Rattle.cycling.specs.Cycling.{Cycling};

use limits::Tasks;
use state::{Property, Tag};

// Whether the task cycles once more: cycle_count and nbr_cycles_value hold numbers, and the first is less. No task of the first edition has a cycle_until.
pub fn cycles(s: &[u32], t: usize) -> bool
    ensures { Cycling s.now t result }
{
    let count = Property::CYCLE_COUNT as usize;
    let most = Property::NBR_CYCLES_VALUE as usize;
    state::cell(s, count, t) == Tag::COUNT
        && state::cell(s, most, t) == Tag::COUNT
        && state::cell(s, count + Tasks::LIMIT, t) < state::cell(s, most + Tasks::LIMIT, t)
}

// The actions that were reached: those that were in progress at some time, in the order of the guideline.
ghost use Rattle.std.specs.Prelude.{◌≡◌, List, ℕ, ◌+◌, ◌≤◌, length};
ghost use Rattle.digits.specs.Appends.{Appends};
ghost use Rattle.season_answer.specs.Fields as fields;

use crate::called::name;
use crate::room::{field, front};
use limits::Tasks;
use state::{Class, Plan, Property, cell};

// The most bytes of their names: 32 of as many as a handle can tell, with a semicolon and a blank between them.
const NAMES: usize = 2_080;

fn is_reached(plan: &[u32], state: &[u32], t: usize) -> bool
    ensures { result ≡ fields.is_reached plan.now state.now t }
{
    cell(plan, Plan::CLASS, t) == Class::ACTION
        && cell(state, Property::IN_PROGRESS_TIME as usize, t) != 0
}

// The name of the task `t`, if it is such an action, behind those of the tasks before it.
fn next(plan: &[u32], texts: &[u8], state: &[u32], t: usize, names: &mut [u8], o: usize) -> usize
    ensures { (out : List ℕ) → o ≡ length (fields.reached_names plan.now texts.now state.now t) → Appends out names.old 0 o (fields.reached_names plan.now texts.now state.now t) → Appends out names.new 0 result (fields.reached_names plan.now texts.now state.now (t + 1)) }
{
    if !is_reached(plan, state, t) {
        return o;
    }
    let h = cell(plan, Plan::TASK_NAME, t);
    if o == 0 {
        return name(texts, h, names, o);
    }
    let p = digits::word(b"; ", names, o);
    name(texts, h, names, p)
}

// The names of all, one behind the other.
fn gather(plan: &[u32], texts: &[u8], state: &[u32], names: &mut [u8]) -> usize
    ensures { 2080 ≤ length names.old → Appends names.old names.new 0 result (fields.reached_names plan.now texts.now state.now 32) }
{
    let mut p = 0usize;
    for t in 0..Tasks::LIMIT {
        p = next(plan, texts, state, t, names, p);
    }
    p
}

// The same as a field.
pub fn reached(
    plan: &[u32],
    texts: &[u8],
    state: &[u32],
    separator: u8,
    out: &mut [u8],
    o: usize,
) -> usize
    ensures { Appends out.old out.new o result (fields.reached_written plan.now texts.now state.now separator) }
{
    let mut names = [0u8; NAMES];
    let k = gather(plan, texts, state, &mut names);
    field(front(&names, k), separator, out, o)
}

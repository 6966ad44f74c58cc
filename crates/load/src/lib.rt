// Load: a guideline's bytes to the tables that every other call is given, or number and place of its refusal.
#![tactic(auto)]

ghost use Rattle.std.specs.Prelude.{◌≡◌, length};
ghost use Rattle.parts.specs.Part.{table};
ghost use Rattle.load.specs.Loads.{few, lent, Emptied, Prepared, Turned, Replied};

use blank::clear;
use limits::{Refusal, WaitTable, Waits};
use opening::{State, open};
use parts::number;

#[derive(Drop)]
pub struct Plan {}

#[derive(Drop)]
pub struct Texts {}

// The least lengths of the tables that reading doesn't test.
impl Plan {
    pub const LEAST: usize = state::Plan::CELLS;

    const TASKS: usize = state::Plan::TASKS;
}

impl Texts {
    pub const LEAST: usize = 65_536;
}

#[derive(Drop)]
pub enum Reply {
    Done,
    Refused(u8, usize),
}

// Whether one of them is too short.
fn is_short(plan: &[u32], bytes: &[u8], state: &[u32]) -> bool
    ensures { result ≡ few (length plan.now) (length bytes.now) (length state.now) }
{
    plan.len() < Plan::LEAST || bytes.len() < Texts::LEAST || state.len() < State::LEAST
}

// Nothing is loaded: what load works out is blank.
fn empty(plan: &mut [u32], waits: &mut WaitTable, state: &mut [u32])
    ensures { Emptied plan.old state.old plan.new waits.new state.new }
{
    clear(plan);
    clear(state);
    *waits = [[false; Waits::SIDE]; Waits::SIDE];
}

// What load works out of the first `n` rows.
fn prepare(
    rows: &[u32],
    n: usize,
    bytes: &[u8],
    plan: &mut [u32],
    waits: &mut WaitTable,
    state: &mut [u32],
)
    ensures { Prepared rows.now n bytes.now plan.old state.old plan.new waits.new state.new }
{
    plan_fill::fill(rows, n, bytes, plan, waits);
    open(state, number(plan, Plan::TASKS));
}

// The refusal of a text for which a table is too short: the text is read for its answer's sake alone.
fn refusal(text: &[u8]) -> Reply
    ensures { Turned text.now result }
{
    let mut rows = [0u32; 1];
    let mut cells = [0u32; 1];
    let mut bytes = [0u8; 1];
    match answering::judge(text, &mut rows, &mut cells, &mut bytes) {
        Ok(_) => Reply::Refused(Refusal::LIMIT, text.len()),
        Err(r) => Reply::Refused(r.number, r.place),
    }
}

// Loads a text. All tables are blank where it is refused.
pub fn load(
    text: &[u8],
    rows: &mut [u32],
    parts: &mut [u32],
    plan: &mut [u32],
    waits: &mut WaitTable,
    texts: &mut [u8],
    state: &mut [u32],
) -> Reply
    ensures { Replied text.now (lent rows.old parts.old plan.old waits.old texts.old state.old) (lent rows.new parts.new plan.new waits.new texts.new state.new) result }
{
    if is_short(plan, texts, state) {
        stages::blank(rows, parts, texts);
        empty(plan, waits, state);
        return refusal(text);
    }
    match answering::judge(text, rows, parts, texts) {
        Ok(n) => {
            prepare(rows, n, texts, plan, waits, state);
            Reply::Done
        }
        Err(r) => {
            empty(plan, waits, state);
            Reply::Refused(r.number, r.place)
        }
    }
}

// 8.3.2, RunEngine, as a call: document 01's tests in their order, and then the run, turn by turn over the lent Changes table.
#![tactic(auto)]

ghost use Rattle.std.specs.Prelude.{◌≡◌, false};
ghost use Rattle.runs.specs.Run.{reported, published, Runs, RunsAlone};
ghost use Rattle.runs.specs.Claims.{Claims};

use change_rows::{Asked, Row};
use endings::Ending;
use limits::{Refusal, WaitTable};
use running::Turn;

// How a run ended, with the number of cycles that it enacted; or the number of its refusal.
#[derive(Clone, Copy)]
pub enum Ran {
    Quiet(u32),
    Bounded(u32),
    Exception(u32),
    Refused(u8),
}

// The ending of a run that does not begin is the number of its refusal.
const LIMIT: u32 = Refusal::LIMIT as u32;

const UNREADY: u32 = Refusal::UNREADY as u32;

fn answer(turn: Turn) -> Ran
    ensures { published result ≡ reported turn.ending turn.cycles }
{
    match turn.ending {
        Ending::QUIET => Ran::Quiet(turn.cycles),
        Ending::BOUNDED => Ran::Bounded(turn.cycles),
        Ending::EXCEPTION => Ran::Exception(turn.cycles),
        LIMIT => Ran::Refused(Refusal::LIMIT),
        _ => Ran::Refused(Refusal::UNREADY),
    }
}

// A run that does not begin: no row of the lent table is touched.
fn refused(ending: u32) -> Turn
    ensures { (result.going ≡ false) × (result.ending ≡ ending) × (result.lent ≡ 0) }
{
    Turn {
        going: false,
        ending,
        cycles: 0,
        lent: 0,
        asked: Asked {
            n: 0,
            cells: [0; Asked::NUMBERS],
        },
    }
}

// The first turn: refused with 7, or with 6 where the bound is beyond its limit or fewer than 1,024 rows are lent.
fn begin(
    parts: &[u32],
    texts: &[u8],
    plan: &[u32],
    waits: WaitTable,
    state: &[u32],
    lent: usize,
    bound: u64,
) -> Turn
    ensures { Claims bound parts.now texts.now plan.now waits state.now lent texts.now state.now result }
{
    if !replying::ready(state) {
        return refused(UNREADY);
    }
    if bound > limits::Run::CYCLES as u64 || lent < limits::Changes::ROWS {
        return refused(LIMIT);
    }
    running::first(parts, texts, plan, waits, state, lent, bound)
}

// Runs the engine until a cycle asks for nothing, `bound` cycles are enacted, or the Exception flag is set. In every turn the rows that are
// asked for are appended to `changes`, the lent Changes table, and taken back to be enacted; every row is blank after an accepted run.
pub fn run(
    parts: &[u32],
    texts: &mut [u8],
    plan: &[u32],
    waits: WaitTable,
    state: &mut [u32],
    changes: &mut [Row],
    bound: u64,
) -> Ran
    ensures { Runs bound parts.now texts.old plan.now waits state.old texts.new state.new changes.old changes.new result }
{
    let mut turn = begin(parts, texts, plan, waits, state, changes.len(), bound);
    while turn.going {
        change_rows::append(changes, turn.asked);
        let back = change_rows::taken(changes, turn.asked.n);
        turn = running::next(parts, texts, plan, waits, state, back, turn, bound);
    }
    change_rows::clear(changes, turn.lent);
    answer(turn)
}

// The same with a Changes table of its own, as if `lent` rows were lent: for callers that have no use for the rows.
pub fn run_alone(
    parts: &[u32],
    texts: &mut [u8],
    plan: &[u32],
    waits: WaitTable,
    state: &mut [u32],
    lent: usize,
    bound: u64,
) -> Ran
    ensures { RunsAlone bound lent parts.now texts.old plan.now waits state.old texts.new state.new result }
{
    let mut turn = begin(parts, texts, plan, waits, state, lent, bound);
    while turn.going {
        turn = running::next(parts, texts, plan, waits, state, turn.asked, turn, bound);
    }
    answer(turn)
}

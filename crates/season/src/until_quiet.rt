// Runs until the guideline is quiet. An enquiry that asks for a value of the line is answered then; where it is wanted, actions that wait for
// it are confirmed; and the guideline runs on.
ghost use Rattle.std.specs.Prelude.{◌≡◌, ◌≤◌};
ghost use Rattle.season.specs.UntilQuiet.{line, is_waiting, RunsOnce, Confirmed, AllConfirmed, GoesOn, Series};

use crate::fields::answer_asked;
use endings::Ending;
use limits::{Tasks, WaitTable};
use runs::Ran;
use state::{Class, Plan, Property, State, Tag, cell, row_is};

// Runs of one line: behind each a value is given or an action confirmed, so that no guideline has so many.
const RUNS: usize = 256;

// How a line ended, with the number of cycles that were enacted.
#[derive(Drop)]
pub struct Ended {
    pub ending: u32,
    pub cycles: usize,
}

fn told(ending: u32, k: u32) -> Ended
    ensures { (result.ending ≡ ending) × (result.cycles ≡ k) × (result.cycles ≤ 4294967295) }
{
    Ended {
        ending,
        cycles: k as usize,
    }
}

// One run: a refused one is told as an exception.
fn run_once(
    parts: &[u32],
    texts: &mut [u8],
    plan: &[u32],
    waits: WaitTable,
    state: &mut [u32],
) -> Ended
    ensures runs_once { RunsOnce parts.now plan.now waits texts.old state.old texts.new state.new result.ending result.cycles }
    ensures few { result.cycles ≤ 4294967295 }
{
    match runs::run_alone(
        parts,
        texts,
        plan,
        waits,
        state,
        limits::Changes::ROWS,
        limits::Run::CYCLES as u64,
    ) {
        Ran::Quiet(k) => told(Ending::QUIET, k),
        Ran::Bounded(k) => told(Ending::BOUNDED, k),
        Ran::Exception(k) => told(Ending::EXCEPTION, k),
        Ran::Refused(_) => told(Ending::EXCEPTION, 0),
    }
}

// Whether the task `t` is an action that is in progress and not confirmed.
fn is_waiting(plan: &[u32], state: &[u32], t: usize) -> bool
    ensures { result ≡ is_waiting plan.now state.now t }
{
    cell(plan, Plan::CLASS, t) == Class::ACTION
        && !row_is(state, Property::CONFIRMED, t, Tag::TRUTH, 1)
        && row_is(state, Property::STATE, t, Tag::STATE, State::IN_PROGRESS)
}

// Confirms it then, whatever the call replies.
fn confirm_one(plan: &[u32], state: &mut [u32], t: usize) -> bool
    ensures { Confirmed plan.now t state.old state.new result }
{
    if is_waiting(plan, state, t) {
        confirming::confirm(plan, state, t as u64);
        return true;
    }
    false
}

// Confirms every such action; whether there was one.
fn confirm(plan: &[u32], state: &mut [u32]) -> bool
    ensures { AllConfirmed plan.now state.old 32 state.new result }
{
    let mut any = false;
    for t in 0..Tasks::LIMIT {
        let one = confirm_one(plan, state, t);
        any = any || one;
    }
    any
}

// Whether it goes on: it is quiet, and then a value was asked for that the line has, or an action was confirmed.
fn goes_on(
    plan: &[u32],
    columns: &[u32],
    many: usize,
    kept: &[u8],
    ends: &[usize],
    texts: &mut [u8],
    state: &mut [u32],
    ending: u32,
    confirms: bool,
) -> bool
    ensures { GoesOn plan.now (line columns.now many kept.now ends.now confirms) ending texts.old state.old texts.new state.new result }
{
    if ending != Ending::QUIET {
        return false;
    }
    let answered = answer_asked(plan, columns, many, kept, ends, texts, state);
    if confirms {
        let confirmed = confirm(plan, state);
        return answered || confirmed;
    }
    answered
}

// Runs a guideline to whose items the values of a line were added.
pub fn run(
    parts: &[u32],
    texts: &mut [u8],
    plan: &[u32],
    waits: WaitTable,
    state: &mut [u32],
    columns: &[u32],
    many: usize,
    kept: &[u8],
    ends: &[usize],
    confirms: bool,
) -> Ended
    ensures { Series parts.now plan.now waits (line columns.now many kept.now ends.now confirms) texts.old state.old texts.new state.new result.ending result.cycles }
{
    let mut cycles = 0usize;
    for _n in 0..RUNS {
        let e = run_once(parts, texts, plan, waits, state);
        cycles += e.cycles;
        if !goes_on(
            plan, columns, many, kept, ends, texts, state, e.ending, confirms,
        ) {
            return Ended {
                ending: e.ending,
                cycles,
            };
        }
    }
    Ended {
        ending: Ending::BOUNDED,
        cycles,
    }
}

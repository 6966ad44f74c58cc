// A run, told cycle by cycle: the tasks that change their state, the data items that are given a value, and how it ended.
// A run of so many cycles is so many runs of one, as long as none is quiet or raises the Exception flag: it leaves what one run with that bound leaves.
ghost use Rattle.std.specs.Prelude.{◌≤◌, ◌<◌};
ghost use Rattle.runs.specs.Run.{RunsAlone};
ghost use Rattle.advise.specs.RunTold.{RunTold};

use crate::cycle;
use limits::{Changes, Run, WaitTable};
use runs::Ran;
use sentences::write;

// One cycle or many.
fn cycles(n: u32) {
    io::print_decimal(pieces::STDOUT_FILENO, u64::from(n));
    if n == 1 {
        write::text(b" cycle");
        return;
    }
    write::text(b" cycles");
}

// How a run ended.
fn tell(r: Ran) {
    match r {
        Ran::Quiet(n) => {
            write::text(b"Quiet after ");
            cycles(n);
            write::text(b": nothing more is to be done now.\n");
        }
        Ran::Bounded(n) => {
            write::text(b"Stopped after ");
            cycles(n);
            write::text(b": there is more to be done.\n");
        }
        Ran::Exception(n) => {
            write::text(b"Exception after ");
            cycles(n);
            write::text(
                b": a data item was given two values at once, and is unknown now. Only what is shown can still be asked for.\n",
            );
        }
        Ran::Refused(n) => refused(n),
    }
}

// A run that was refused.
fn refused(r: u8) {
    match r {
        6 => write::text(b"Refused with 6: a run has at most 256 cycles.\n"),
        _ => write::text(
            b"Refused with 7: an exception has stopped the engine. Start again to go on.\n",
        ),
    }
}

// Cycle by cycle, up to the bound.
fn one_by_one(
    rows: &[u32],
    parts: &[u32],
    texts: &mut [u8],
    plan: &[u32],
    waits: WaitTable,
    state: &mut [u32],
    bound: u32,
) -> Ran
    requires { (0 < bound) × (bound ≤ 256) }
    ensures { RunsAlone bound 1024 parts.now texts.old plan.now waits state.old texts.new state.new result }
{
    for i in 0..bound {
        let c = cycle::enact(rows, parts, texts, plan, waits, state, i + 1);
        let r = cycle::after(i, c);
        if !cycle::is_bounded(r) {
            return r;
        }
    }
    Ran::Bounded(bound)
}

// The same, where the bound is none or too high: by one run, which enacts no cycle.
fn followed(
    rows: &[u32],
    parts: &[u32],
    texts: &mut [u8],
    plan: &[u32],
    waits: WaitTable,
    state: &mut [u32],
    bound: u64,
) -> Ran
    ensures { RunsAlone bound 1024 parts.now texts.old plan.now waits state.old texts.new state.new result }
{
    if bound == 0 || (Run::CYCLES as u64) < bound {
        return runs::run_alone(parts, texts, plan, waits, state, Changes::ROWS, bound);
    }
    one_by_one(rows, parts, texts, plan, waits, state, bound as u32)
}

// Runs the engine, and tells what it does.
pub fn run(
    rows: &[u32],
    parts: &[u32],
    texts: &mut [u8],
    plan: &[u32],
    waits: WaitTable,
    state: &mut [u32],
    bound: u64,
)
    ensures { RunTold bound parts.now texts.old plan.now waits state.old texts.new state.new }
{
    let r = followed(rows, parts, texts, plan, waits, state, bound);
    tell(r);
}

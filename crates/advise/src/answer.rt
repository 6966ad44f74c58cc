// What is done for a line.
ghost use Rattle.std.specs.Prelude.{◌≡◌};
ghost use Rattle.advise.specs.Answer.{between, quitb, Obeys, Answers};

use crate::{confirms, giving, help, shown, timing, told_run, triggers};
use commands::Command;
use limits::{Run, WaitTable};
use tree::Tables;

const CYCLES: u64 = Run::CYCLES as u64;

// The bytes of a line from one place up to another: none, if they are not there.
fn part(line: &[u8], from: usize, to: usize) -> &[u8]
    ensures { result.now ≡ between line.now from to }
{
    line.get(from..to).unwrap_or(&[])
}

// What a line shows.
fn show(
    c: Command,
    line: &[u8],
    rows: &[u32],
    parts: &[u32],
    texts: &[u8],
    plan: &[u32],
    waits: WaitTable,
    state: &[u32],
) {
    let g = Tables {
        rows,
        parts,
        texts,
        plan,
        state,
    };
    match c {
        Command::Tree => g.show(),
        Command::Asked => shown::asked(g),
        Command::Rows(from, to) => shown::rows_of(g, waits, part(line, from, to)),
        Command::Why(from, to) => shown::why_is(g, waits, part(line, from, to)),
        Command::Help => help::tell(),
        Command::Unclear(place) => help::unclear(place),
        _ => {}
    }
}

// Does what a command of a line asks for.
fn obey(
    c: Command,
    line: &[u8],
    rows: &[u32],
    parts: &[u32],
    texts: &mut [u8],
    plan: &[u32],
    waits: WaitTable,
    state: &mut [u32],
)
    ensures { Obeys rows.now parts.now plan.now waits line.now texts.old state.old c texts.new state.new }
{
    match c {
        Command::Give(from, to, at) => {
            giving::give(line, part(line, from, to), at, rows, texts, plan, state);
        }
        Command::Run => told_run::run(rows, parts, texts, plan, waits, state, CYCLES),
        Command::RunFor(n) => told_run::run(rows, parts, texts, plan, waits, state, n),
        Command::Confirm(from, to) => {
            confirms::confirm(rows, texts, plan, state, part(line, from, to));
        }
        Command::Trigger(from, to) => {
            triggers::trigger(rows, texts, plan, state, part(line, from, to));
        }
        Command::Time(n) => timing::set(state, n),
        Command::Later(n) => timing::later(state, n),
        Command::Earlier(n) => timing::earlier(state, n),
        Command::Nothing => {}
        Command::Tree => show(c, line, rows, parts, texts, plan, waits, state),
        Command::Asked => show(c, line, rows, parts, texts, plan, waits, state),
        Command::Rows(_, _) => show(c, line, rows, parts, texts, plan, waits, state),
        Command::Why(_, _) => show(c, line, rows, parts, texts, plan, waits, state),
        Command::Help => show(c, line, rows, parts, texts, plan, waits, state),
        Command::Quit => {}
        Command::Unclear(_) => show(c, line, rows, parts, texts, plan, waits, state),
    }
}

fn is_quit(c: Command) -> bool
    ensures { result ≡ quitb c }
{
    matches!(c, Command::Quit)
}

// Answers a line; whether there may be another.
pub fn answer(
    line: &[u8],
    rows: &[u32],
    parts: &[u32],
    texts: &mut [u8],
    plan: &[u32],
    waits: WaitTable,
    state: &mut [u32],
) -> bool
    ensures { Answers rows.now parts.now plan.now waits line.now texts.old state.old texts.new state.new result }
{
    let c = commands::read(line);
    obey(c, line, rows, parts, texts, plan, waits, state);
    !is_quit(c)
}

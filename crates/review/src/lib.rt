// 8.3.2, 2: the review of all tasks against one table, and the rows of the Changes table that it leaves.
#![tactic(auto)]

ghost use Rattle.std.specs.Prelude.{◌≡◌, ◌≤◌, get_or};
ghost use Rattle.review.specs.Changes.{EachRows, Few, Reviews};

use changes::{Row, Rows};
use limits::{Marks, WaitTable};
use state::Plan;

// The number of tasks.
fn tasks(f: &[u32]) -> u32
    ensures { (result ≤ 32) × (get_or f.now 0 0 ≤ 32 → result ≡ get_or f.now 0 0) }
{
    let n = blocks::cell(f, Plan::TASKS);
    if n <= Row::TASKS { n } else { 0 }
}

// The rows of every task, whose conditions are marked.
fn each(
    s: &[u32],
    f: &[u32],
    clock: u32,
    initialises: Marks,
    starts: Marks,
    discards: Marks,
    completes: Marks,
    out: &mut [u32],
) -> usize
    ensures each_rows { EachRows s.now f.now clock initialises starts discards completes out.old out.new result }
    ensures few { Few f.now result }
{
    let mut rows = Rows {
        cells: out,
        count: 0,
    };
    for t in 0..tasks(f) {
        let i = t as usize;
        operations::review_one(
            s,
            f,
            clock,
            t,
            initialises[i],
            starts[i],
            discards[i],
            completes[i],
            &mut rows,
        );
    }
    rows.count
}

// The rows that the review asks for, and how many. `pre` and `wait` mark the tasks whose precondition and wait_condition, if there, are true,
// `ends` those whose terminate expression is there and true.
pub fn review(
    s: &[u32],
    f: &[u32],
    w: WaitTable,
    pre: Marks,
    wait: Marks,
    ends: Marks,
    clock: u32,
    out: &mut [u32],
) -> usize
    ensures reviews { Reviews s.now f.now w pre wait ends clock out.old out.new result }
    ensures few { Few f.now result }
{
    let starts = passes::starts(s, f, w, pre, wait, clock as usize);
    let initialises = passes::initialises(s, f, starts);
    let ended = passes::terminated(s, f, ends);
    let discards = passes::discarded(s, f, w, pre, wait, ended);
    let completes = passes::completed(s, f, starts, discards, initialises);
    each(s, f, clock, initialises, starts, discards, completes, out)
}

// The tasks that are reached from the root, by marks.
// Each plan is followed once.
ghost use Rattle.std.specs.Prelude.{◌≡◌, ◌+◌, length};
ghost use Rattle.names.specs.Walk.{Follows, Marks, Spreads, Reaches, Waits};
ghost use Rattle.names.specs.Verdict.{Tells, TellsOne};

use parts::{byte, number};
use row_tests::cells::{handle, place};
use row_tests::least::nearer;
use row_tests::search::{finish, named};

// A task's mark: it is not reached so far, reached, or reached and its components followed.
#[derive(Drop)]
struct Visit;

impl Visit {
    const NONE: u8 = 0;

    const REACHED: u8 = 1;

    const FOLLOWED: u8 = 2;
}

// Whether a component of the plan that begins at the row `t` has the name of the k-th task.
fn follows(rows: &[u32], n: usize, bytes: &[u8], tasks: &[u32], t: usize, k: usize) -> bool
    ensures { Follows rows.now n bytes.now tasks.now t k result }
{
    if n <= t {
        return false;
    }
    let h = handle(rows, number(tasks, k));
    let z = finish(rows, n, t);
    named(rows, bytes, t + 1, z, h)
}

// Marks the k-th task, if it has no mark and the plan leads to it.
fn mark(rows: &[u32], n: usize, bytes: &[u8], tasks: &[u32], t: usize, k: usize, marks: &mut [u8])
    ensures { Marks rows.now n bytes.now tasks.now t k marks.old marks.new }
{
    if marks.len() <= k {
        return;
    }
    if marks[k] != Visit::NONE {
        return;
    }
    if !follows(rows, n, bytes, tasks, t, k) {
        return;
    }
    marks[k] = Visit::REACHED;
}

// Marks all tasks that the plan leads to.
fn spread(rows: &[u32], n: usize, bytes: &[u8], tasks: &[u32], m: usize, t: usize, marks: &mut [u8])
    ensures { Spreads rows.now n bytes.now tasks.now m t marks.old marks.new }
{
    for k in 0..m {
        mark(rows, n, bytes, tasks, t, k, marks);
    }
}

// The first task that waits to be followed, or the number of marks.
fn waiting(marks: &[u8]) -> usize
    ensures { Waits marks.now result }
{
    for (k, mark) in marks.iter().enumerate() {
        if *mark == Visit::REACHED {
            return k;
        }
    }
    marks.len()
}

// Marks the tasks that are reached; the first task is the root.
pub fn reach(rows: &[u32], n: usize, bytes: &[u8], tasks: &[u32], m: usize, marks: &mut [u8])
    ensures { Reaches rows.now n bytes.now tasks.now m marks.old marks.new }
{
    if marks.len() == 0 {
        return;
    }
    marks[0] = Visit::REACHED;
    let mut i = waiting(marks);
    while i < marks.len() {
        marks[i] = Visit::FOLLOWED;
        spread(rows, n, bytes, tasks, m, number(tasks, i), marks);
        i = waiting(marks);
    }
}

// One task more, told at its name if it has no mark.
fn tell(rows: &[u32], tasks: &[u32], marks: &[u8], k: usize, best: Option<usize>) -> Option<usize>
    ensures { TellsOne rows.now tasks.now marks.now k best result }
{
    if byte(marks, k) == Visit::NONE {
        return nearer(best, place(rows, number(tasks, k)));
    }
    best
}

// The smallest place, of what was found so far and of the tasks that have no mark.
pub fn unreached(
    rows: &[u32],
    tasks: &[u32],
    m: usize,
    marks: &[u8],
    best: Option<usize>,
) -> Option<usize>
    ensures { Tells rows.now tasks.now marks.now m m best result }
{
    let mut found = best;
    for k in 0..m {
        found = tell(rows, tasks, marks, k, found);
    }
    found
}

// The order of the tasks, parents first: next is the first that is not placed and whose parent is, or that has none.
ghost use Rattle.std.specs.Prelude.{◌≡◌, cond, ◌≤◌, ◌<◌, ltb};
ghost use Rattle.plan.specs.Writes.{ready, first_that};
ghost use Rattle.plan_fill.specs.Rounds.{parents_in, placed_in, Placing, Orders};

use limits::Tasks;
use parts::{byte, number};
use plan_cells::cells::put;
use state::Plan;

// Whether the task `t` can be placed.
fn is_ready(f: &[u32], marks: &[u8], t: usize) -> bool
    requires { t < 32 }
    ensures { result ≡ ready (parents_in f.now) (placed_in marks.now) t }
{
    if byte(marks, t) == 1 {
        return false;
    }
    let p = number(f, Plan::PARENT + t);
    p == 0 || byte(marks, p - 1) == 1
}

// The next of the `m` tasks, or `m`.
fn next(f: &[u32], m: usize, marks: &[u8]) -> usize
    requires { m ≤ 32 }
    ensures { result ≡ first_that (ready (parents_in f.now) (placed_in marks.now)) m }
{
    for t in 0..m {
        if is_ready(f, marks, t) {
            return t;
        }
    }
    m
}

// The task as it stands in a cell; the root if there is no next.
fn placed(t: usize, m: usize) -> u32
    requires { m ≤ 32 }
    ensures { result ≡ cond (ltb t m) t 0 }
{
    if t < m { t as u32 } else { 0 }
}

fn mark(marks: &mut [u8], t: usize)
    ensures { Placing t marks.old marks.new }
{
    if t < marks.len() {
        marks[t] = 1;
    }
}

// The column of the order of `m` tasks.
pub fn order(f: &mut [u32], m: usize)
    requires { m ≤ 32 }
    ensures { Orders m f.old f.new }
{
    let mut marks = [0u8; 64];
    for k in 0..Tasks::LIMIT {
        let t = next(f, m, &marks);
        mark(&mut marks, t);
        put(f, Plan::ORDER, Tasks::LIMIT, k, placed(t, m));
    }
}

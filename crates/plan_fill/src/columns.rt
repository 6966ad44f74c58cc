// The columns that the rows write, row by row.
ghost use Rattle.plan_fill.specs.Rounds.{Step, AllRows};

use plan_cells::found::child;
use plan_cells::spot::{Spot, passed};
use plan_entries::write;
use row_tests::cells::kind;

// One row more.
fn step(
    rows: &[u32],
    n: usize,
    bytes: &[u8],
    tasks: &[u32],
    m: usize,
    items: &[u32],
    d: usize,
    k: usize,
    at: Spot,
    f: &mut [u32],
) -> Spot
    ensures { Step rows.now n bytes.now tasks.now m items.now d k at f.old f.new result }
{
    let c = child(rows, bytes, tasks, m, k, at.child);
    write(rows, n, bytes, tasks, m, items, d, k, at, c, f);
    passed(at, kind(rows, k), c)
}

// The first `n` rows, of `m` tasks and `d` data items.
pub fn columns(
    rows: &[u32],
    n: usize,
    bytes: &[u8],
    tasks: &[u32],
    m: usize,
    items: &[u32],
    d: usize,
    f: &mut [u32],
)
    ensures { AllRows rows.now n bytes.now tasks.now m items.now d f.old f.new }
{
    let mut at = Spot {
        tasks: 0,
        items: 0,
        sources: 0,
        assignments: 0,
        sourced: 0,
        assigned: 0,
        child: 0,
    };
    for k in 0..n {
        at = step(rows, n, bytes, tasks, m, items, d, k, at, f);
    }
}

// The smallest place at which a row has a flaw.
ghost use Rattle.std.specs.Prelude.{◌≡◌};
ghost use Rattle.names.specs.Verdict.{spot_of, AllFlaws, Judges};

use name_tests::flaws::flawed;
use row_tests::cells::{kind, place, word};
use row_tests::kinds::once;
use row_tests::least::nearer;

// Where a flaw of the row is told: at the word of a repeated attribute, or at the name.
pub fn spot(rows: &[u32], j: usize) -> usize
    ensures { result ≡ spot_of rows.now j }
{
    if once(kind(rows, j)) {
        word(rows, j)
    } else {
        place(rows, j)
    }
}

// One row more.
fn judge(
    rows: &[u32],
    n: usize,
    bytes: &[u8],
    tasks: &[u32],
    m: usize,
    items: &[u32],
    d: usize,
    j: usize,
    best: Option<usize>,
) -> Option<usize>
    ensures { Judges rows.now n bytes.now tasks.now m items.now d j best result }
{
    if flawed(rows, n, bytes, tasks, m, items, d, j) {
        nearer(best, spot(rows, j))
    } else {
        best
    }
}

// The smallest place of a flaw.
pub fn flaws(
    rows: &[u32],
    n: usize,
    bytes: &[u8],
    tasks: &[u32],
    m: usize,
    items: &[u32],
    d: usize,
) -> Option<usize>
    ensures { AllFlaws rows.now n bytes.now tasks.now m items.now d n result }
{
    let mut best = None;
    for j in 0..n {
        best = judge(rows, n, bytes, tasks, m, items, d, j, best);
    }
    best
}

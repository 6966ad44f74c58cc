// The task, or the data item, that a name means: its number, or how many there are.
ghost use Rattle.std.specs.Prelude.{◌≡◌};
ghost use Rattle.plan_cells.specs.Finds.{found_at, Finds, Child, Row};

use guideline_rows::Kind;
use name_tests::lists::matches;
use parts::number;
use row_tests::cells::{handle, kind};

// Whether the name of the k-th row of the list matches.
fn is_found(rows: &[u32], bytes: &[u8], list: &[u32], folded: bool, h: usize, k: usize) -> bool
    ensures { result ≡ found_at rows.now bytes.now list.now folded h k }
{
    matches(bytes, folded, handle(rows, number(list, k)), h)
}

// The first of the `m` rows of the list whose name matches.
pub fn find(rows: &[u32], bytes: &[u8], list: &[u32], m: usize, folded: bool, h: usize) -> usize
    ensures { Finds rows.now bytes.now list.now m folded h result }
{
    for k in 0..m {
        if is_found(rows, bytes, list, folded, h, k) {
            return k;
        }
    }
    m
}

// The task that the last component names, after the row `k`.
pub fn child(rows: &[u32], bytes: &[u8], tasks: &[u32], m: usize, k: usize, last: usize) -> usize
    ensures { Child rows.now bytes.now tasks.now m k last result }
{
    if kind(rows, k) == Kind::COMPONENT {
        find(rows, bytes, tasks, m, false, handle(rows, k))
    } else {
        last
    }
}

// The row of the task `c` of `m`, or the end of the rows.
pub fn row(tasks: &[u32], m: usize, n: usize, c: usize) -> usize
    ensures { Row tasks.now m n c result }
{
    if c < m { number(tasks, c) } else { n }
}

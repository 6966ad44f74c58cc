// Refusal 5: the smallest place at which an expression has no fitting type.
// Nothing is asked of the tables: on any contents it ends and does nothing undefined.
#![tactic(auto)]

pub mod columns;
mod misfits;

ghost use Rattle.std.specs.Prelude.{◌≤◌, length};
ghost use Rattle.parts.specs.Part.{table};
ghost use Rattle.types.specs.Judged.{Judged, JudgedWith};

use columns::gather;
use limits::DataItems;
use misfits::misfits;
use row_tests::cells::ROWS;

// With the columns of the first `m` data items.
fn judged(
    rows: &[u32],
    n: usize,
    cells: &[u32],
    bytes: &[u8],
    names: &[u32],
    types: &[u8],
    m: usize,
) -> Option<usize>
    requires { m ≤ length names.now }
    ensures { JudgedWith rows.now n (table cells.now bytes.now) names.now types.now m result }
{
    misfits(rows, n, cells, bytes, &names[..m], types)
}

// The first `n` rows of a guideline of at most 64 data items, of which no rule on names is broken.
pub fn check(rows: &[u32], n: usize, cells: &[u32], bytes: &[u8]) -> Option<usize>
    ensures { Judged rows.now n (table cells.now bytes.now) result }
{
    if ROWS < n {
        return None;
    }
    let mut names = [0u32; DataItems::LIMIT];
    let mut types = [0u8; DataItems::LIMIT];
    let m = gather(rows, n, &mut names, &mut types);
    if DataItems::LIMIT < m {
        return None;
    }
    judged(rows, n, cells, bytes, &names, &types, m)
}

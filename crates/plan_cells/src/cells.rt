// How a cell of a column of the plan is written. Numbers that pass 65,536 are not counted.
ghost use Rattle.std.specs.Prelude.{◌≡◌, ◌-◌, ◌+◌, ◌<◌};
ghost use Rattle.row_tests.specs.Table.{cell_of};
ghost use Rattle.plan.specs.Puts.{Puts};

use guideline_rows::Row;
use parts::word;
use row_tests::cells::ROWS;

// The cell `i` of the column, if the column has it.
pub fn put(f: &mut [u32], column: usize, room: usize, i: usize, v: u32)
    ensures { Puts column room i v f.old f.new }
{
    if i < room && column < f.len() && i < f.len() - column {
        f[column + i] = v;
    }
}

// A count as it stands in a cell.
pub fn short(x: usize) -> u32
    ensures { x < 131072 → result ≡ x }
{
    if x < 2 * ROWS { x as u32 } else { 0 }
}

// One more.
pub fn more(x: usize) -> usize
    ensures { x < 65536 → result ≡ x + 1 }
{
    if x < ROWS { x + 1 } else { x }
}

// What is left of `x`, or 0.
pub fn less(x: usize, y: usize) -> usize
    ensures { result ≡ x - y }
{
    x.saturating_sub(y)
}

// The cell `c` of the row `i`, as it stands there.
#[tactic(auto, unfolding(row_tests::specs::Table::cell_of))]
pub fn cell(rows: &[u32], i: usize, c: usize) -> u32
    requires { c < 8 }
    ensures { result ≡ cell_of rows.now i c }
{
    if i < ROWS {
        word(rows, i * Row::CELLS + c)
    } else {
        0
    }
}

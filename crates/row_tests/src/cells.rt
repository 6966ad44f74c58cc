// The cells of a row. Rows from 65,536 on read as 0.
ghost use Rattle.std.specs.Prelude.{◌≡◌, ◌<◌};
ghost use Rattle.row_tests.specs.Table.{cell_of};

use guideline_rows::Row;
use parts::number;

// No row from here on is read.
pub const ROWS: usize = 65_536;

fn cell(rows: &[u32], i: usize, c: usize) -> usize
    requires { c < 8 }
    ensures { result ≡ cell_of rows.now i c }
{
    if i < ROWS {
        number(rows, i * Row::CELLS + c)
    } else {
        0
    }
}

// The number of its word's terminal.
pub fn kind(rows: &[u32], i: usize) -> usize
    ensures { result ≡ cell_of rows.now i 0 }
{
    cell(rows, i, Row::KIND)
}

// The place of an attribute's word.
pub fn word(rows: &[u32], i: usize) -> usize
    ensures { result ≡ cell_of rows.now i 1 }
{
    cell(rows, i, Row::WORD)
}

// The handle of its name.
pub fn handle(rows: &[u32], i: usize) -> usize
    ensures { result ≡ cell_of rows.now i 2 }
{
    cell(rows, i, Row::NAME)
}

// The place of its name.
pub fn place(rows: &[u32], i: usize) -> usize
    ensures { result ≡ cell_of rows.now i 3 }
{
    cell(rows, i, Row::PLACE)
}

// The first part of its expression.
pub fn first_part(rows: &[u32], i: usize) -> usize
    ensures { result ≡ cell_of rows.now i 4 }
{
    cell(rows, i, Row::FIRST)
}

// The place of its expression's first byte.
pub fn begin(rows: &[u32], i: usize) -> usize
    ensures { result ≡ cell_of rows.now i 5 }
{
    cell(rows, i, Row::START)
}

// The part behind the last of its expression; 0 if it has none.
pub fn end(rows: &[u32], i: usize) -> usize
    ensures { result ≡ cell_of rows.now i 6 }
{
    cell(rows, i, Row::END)
}

// The number of a data item's declared type.
pub fn declared(rows: &[u32], i: usize) -> usize
    ensures { result ≡ cell_of rows.now i 7 }
{
    cell(rows, i, Row::FLAG)
}

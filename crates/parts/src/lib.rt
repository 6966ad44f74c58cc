// The part table: expressions in postfix order, a row of four cells for each part: its code, its number of operands, its size
// and what it loads. Reads are guarded: what stands past the end of a slice reads as 0. The table's laws are in specs/.
#![tactic(auto)]

mod codes;
pub mod names;

ghost use Rattle.std.specs.Prelude.{◌≡◌, ◌+◌, ◌*◌, ◌-◌, ◌<◌, get_or};
ghost use Rattle.parts.specs.Texts.{literal as literalOf};

pub use codes::{Code, Declared, Family};
use numbers::Num;

// A row of the table by name: the cells of a part.
#[derive(Drop)]
pub struct Row;

impl Row {
    pub const CELLS: usize = 4;

    pub const CODE: usize = 0;

    pub const COUNT: usize = 1;

    pub const SIZE: usize = 2;

    pub const LOAD: usize = 3;
}

// A text's handle is so many times its place in the text bytes, and its length.
pub const HANDLE: usize = 64;

// A cell of a slice of numbers, as it stands there.
pub fn word(col: &[u32], i: usize) -> u32
    ensures { result ≡ get_or col.now i 0 }
{
    col.get(i).copied().unwrap_or(0)
}

// A cell of a slice of numbers.
pub fn number(col: &[u32], i: usize) -> usize
    ensures { result ≡ get_or col.now i 0 }
{
    word(col, i) as usize
}

// A cell of a slice of bytes.
pub fn byte(col: &[u8], i: usize) -> u8
    ensures { result ≡ get_or col.now i 0 }
{
    col.get(i).copied().unwrap_or(0)
}

// The cell `k` of the row `p`.
fn cell(cells: &[u32], p: usize, k: usize) -> u32
    requires { k < 4 }
    ensures { result ≡ get_or cells.now (p * 4 + k) 0 }
{
    if cells.len() / Row::CELLS < p {
        0
    } else {
        word(cells, p * Row::CELLS + k)
    }
}

// What the part `p` is, by its number.
pub fn code(cells: &[u32], p: usize) -> usize
    ensures { result ≡ get_or cells.now (p * 4) 0 }
{
    cell(cells, p, Row::CODE) as usize
}

// How many operands it has.
pub fn count(cells: &[u32], p: usize) -> usize
    ensures { result ≡ get_or cells.now (p * 4 + 1) 0 }
{
    cell(cells, p, Row::COUNT) as usize
}

// How many parts its whole expression has.
pub fn size(cells: &[u32], p: usize) -> usize
    ensures { result ≡ get_or cells.now (p * 4 + 2) 0 }
{
    cell(cells, p, Row::SIZE) as usize
}

// What it loads: the handle of a text, or a number that stands for a literal.
pub fn load(cells: &[u32], p: usize) -> u32
    ensures { result ≡ get_or cells.now (p * 4 + 3) 0 }
{
    cell(cells, p, Row::LOAD)
}

// Where the operand before the one that ends at `q` ends.
pub fn back(cells: &[u32], q: usize) -> usize
    ensures { result ≡ q - get_or cells.now ((q - 1) * 4 + 2) 0 }
{
    if q == 0 {
        0
    } else {
        q.saturating_sub(size(cells, q - 1))
    }
}

// The integer, or the thousandths of the float, that a load stands for.
pub fn literal(x: u32) -> i64
    ensures { result ≡ literalOf x }
{
    i64::from(x) - Num::REAL_LIMIT
}

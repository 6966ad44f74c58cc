// The names and declared types of the data items, in two columns.
ghost use Rattle.std.specs.Prelude.{◌≤◌, ◌<◌};
ghost use Rattle.types.specs.Columns.{Puts, Gathers};

use guideline_rows::{Kind, Row};
use parts::word;
use row_tests::cells::kind;

// The row `i` behind the `m` that were found, if it is a data item: how many there are then.
fn put(rows: &[u32], names: &mut [u32], types: &mut [u8], m: usize, i: usize) -> usize
    requires { (m ≤ i) × (i < 65536) }
    ensures { Puts rows.now names.old types.old m i names.new types.new result }
{
    if kind(rows, i) != Kind::DATA {
        return m;
    }
    if names.len() <= m {
        return m + 1;
    }
    if types.len() <= m {
        return m + 1;
    }
    names[m] = word(rows, i * Row::CELLS + Row::NAME);
    types[m] = (word(rows, i * Row::CELLS + Row::FLAG) % 256) as u8;
    m + 1
}

// The handles of the names and the types of the data items, as far as there is room; answers how many there are.
pub fn gather(rows: &[u32], n: usize, names: &mut [u32], types: &mut [u8]) -> usize
    requires { n ≤ 65536 }
    ensures { Gathers rows.now n names.old types.old names.new types.new result }
{
    let mut m = 0;
    for i in 0..n {
        m = put(rows, names, types, m, i);
    }
    m
}

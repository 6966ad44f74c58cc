// Rows of the row table.
ghost use Rattle.std.specs.Prelude.{◌≡◌};
ghost use Rattle.guideline_walk.specs.Made.{low as low_of, Puts};

use guideline_rows::Row;
use guideline_turns::Entry;

// No cell holds a number from here on.
const CELL: usize = 4_294_967_296;

// What fits a cell.
fn low(x: usize) -> u32
    ensures { result ≡ low_of x }
{
    if x < CELL { x as u32 } else { 0 }
}

// Writes the row `n` that a turn gave, whose name has the handle `h`: its kind and the place of its word, its name and where it stands,
// the first part of its expression, where that starts, the part behind the last, and yes, no or a type.
pub fn put(rows: &mut [u32], n: usize, t: Entry, h: u32)
    ensures { Puts rows.old rows.new n t h }
{
    if rows.len() / Row::CELLS <= n {
        return;
    }
    let i = n * Row::CELLS;
    rows[i] = u32::from(t.kind);
    rows[i + Row::WORD] = low(t.word);
    rows[i + Row::NAME] = h;
    rows[i + Row::PLACE] = low(t.place());
    rows[i + Row::FIRST] = low(t.first());
    rows[i + Row::START] = low(t.start());
    rows[i + Row::END] = low(t.end());
    rows[i + Row::FLAG] = u32::from(t.flag);
}

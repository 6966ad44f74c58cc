// The least lengths of the lent tables.
ghost use Rattle.std.specs.Prelude.{◌≡◌};
ghost use Rattle.stages.specs.Judged.{is_short};

use limits::{Expressions, Guideline, Rows};

// Whether one of the tables is shorter than its least length.
pub fn short(rows: usize, cells: usize, bytes: usize) -> bool
    ensures { result ≡ is_short rows cells bytes }
{
    rows < Rows::CELLS || cells < Expressions::CELLS || bytes < Guideline::LIMIT
}

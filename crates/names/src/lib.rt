// Refusal 4: the smallest place at which a row breaks a rule on names.
// Nothing is asked of the tables: on any contents it ends and does nothing undefined.
#![tactic(auto)]

pub mod flaws;
mod walk;

ghost use Rattle.names.specs.Verdict.{Judged};

use flaws::flaws;
use limits::{DataItems, Tasks};
use name_tests::lists::gather;
use row_tests::cells::ROWS;
use walk::{reach, unreached};

// The first `n` rows of a guideline of at most 32 tasks and 64 data items.
pub fn check(rows: &[u32], n: usize, bytes: &[u8]) -> Option<usize>
    ensures { Judged rows.now n bytes.now result }
{
    if ROWS < n {
        return None;
    }
    let mut tasks = [0u32; Tasks::LIMIT];
    let m = gather(rows, n, true, &mut tasks);
    if Tasks::LIMIT < m {
        return None;
    }
    let mut items = [0u32; DataItems::LIMIT];
    let d = gather(rows, n, false, &mut items);
    if DataItems::LIMIT < d {
        return None;
    }
    let mut marks = [0u8; Tasks::LIMIT];
    reach(rows, n, bytes, &tasks, m, &mut marks);
    let best = flaws(rows, n, bytes, &tasks, m, &items, d);
    unreached(rows, &tasks, m, &marks, best)
}

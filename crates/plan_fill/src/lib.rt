// What load works out of the rows of a guideline for the engine: the cells of the plan, and who waits for whom.
// Nothing is asked of the tables: on any contents it ends and does nothing undefined.
#![tactic(auto)]

mod columns;
mod order;
mod waiting;

ghost use Rattle.plan.specs.Filled.{Fills};

use blank::clear;
use columns::columns;
use limits::{DataItems, Tasks, WaitTable};
use name_tests::lists::gather;
use order::order;
use row_tests::cells::ROWS;
use waiting::waiting;

// From the first `n` rows and the text bytes: the plan `f`, and the table `w` of who waits for whom.
pub fn fill(rows: &[u32], n: usize, bytes: &[u8], f: &mut [u32], w: &mut WaitTable)
    ensures { Fills rows.now n bytes.now f.old f.new w.new }
{
    clear(f);
    if ROWS < n {
        return;
    }
    let mut tasks = [0u32; Tasks::LIMIT];
    let m = gather(rows, n, true, &mut tasks);
    if Tasks::LIMIT < m {
        return;
    }
    let mut items = [0u32; DataItems::LIMIT];
    let d = gather(rows, n, false, &mut items);
    if DataItems::LIMIT < d {
        return;
    }
    columns(rows, n, bytes, &tasks, m, &items, d, f);
    order(f, m);
    *w = waiting(rows, n, bytes, &tasks, m);
}

// What the rows passed so far count.
ghost use Rattle.std.specs.Prelude.{◌≡◌, cond, ◌+◌, ◌<◌};
ghost use Rattle.row_names.specs.Flat.{is_data};
ghost use Rattle.plan.specs.Writes.{one_if, is_source, is_assignment};
ghost use Rattle.plan_cells.specs.Spots.{Steps};

use guideline_rows::Kind;
use row_tests::cells::ROWS;
use row_tests::kinds::is_task;

#[derive(Clone, Copy)]
pub struct Spot {
    pub tasks: usize,
    pub items: usize,
    pub sources: usize,
    pub assignments: usize,
    // how many sources and assignments there were where the last task began
    pub sourced: usize,
    pub assigned: usize,
    // the task that the last component names
    pub child: usize,
}

// One more, if the row counts.
fn tick(x: usize, counts: bool) -> usize
    ensures { x < 65536 → result ≡ x + one_if counts }
{
    if counts && x < ROWS { x + 1 } else { x }
}

// Behind a row of the kind `k`, where the last component names `child`.
pub fn passed(at: Spot, k: usize, child: usize) -> Spot
    ensures { Steps at k child result }
{
    let t = is_task(k);
    Spot {
        tasks: tick(at.tasks, t),
        items: tick(at.items, k == Kind::DATA),
        sources: tick(at.sources, k == Kind::SOURCE),
        assignments: tick(at.assignments, k == Kind::EQUALS),
        sourced: if t { at.sources } else { at.sourced },
        assigned: if t { at.assignments } else { at.assigned },
        child,
    }
}

// The parts, the plan and the state as load left them, one behind the other in one slice.
ghost use Rattle.std.specs.Prelude.{◌≡◌, ◌≤◌, length};
ghost use Rattle.truths.specs.Part.{part_of};
ghost use Rattle.season.specs.Lines.{Joined};

use blocks::copy_cells;
use truths::part;

#[derive(Drop)]
pub struct Cells {}

// The cells of each, and of all; the bytes of the texts.
impl Cells {
    pub const PARTS: usize = limits::Expressions::CELLS;

    pub const PLAN: usize = load::Plan::LEAST;

    pub const STATE: usize = opening::State::LEAST;

    pub const ALL: usize = Cells::PARTS + Cells::PLAN + Cells::STATE;

    pub const TEXTS: usize = load::Texts::LEAST;
}

// stays: promise of LineAnswered, which has the three in one list
pub fn join(parts: &[u32], plan: &[u32], state: &[u32], tables: &mut [u32])
    ensures { 8688 ≤ length tables.old → Joined parts.now plan.now state.now tables.new }
{
    copy_cells(parts, 0, tables, 0, Cells::PARTS);
    copy_cells(plan, 0, tables, Cells::PARTS, Cells::PLAN);
    copy_cells(state, 0, tables, Cells::PARTS + Cells::PLAN, Cells::STATE);
}

pub fn parts_of(tables: &[u32]) -> &[u32]
    ensures { result.now ≡ part_of tables.now 0 4096 }
{
    part(tables, 0, Cells::PARTS)
}

pub fn plan_of(tables: &[u32]) -> &[u32]
    ensures { result.now ≡ part_of tables.now 4096 1640 }
{
    part(tables, Cells::PARTS, Cells::PLAN)
}

pub fn state_of(tables: &[u32]) -> &[u32]
    ensures { result.now ≡ part_of tables.now 5736 2952 }
{
    part(tables, Cells::PARTS + Cells::PLAN, Cells::STATE)
}

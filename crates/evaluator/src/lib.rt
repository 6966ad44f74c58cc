// The evaluator: the value of the expression that the part table holds up to a place, by sections 9 and 11.
// The values of the data items and the states of the tasks are lent, as slices of numbers.
// Nothing is asked of the tables: on any contents the evaluator ends and does nothing undefined.
#![tactic(auto)]

mod items;
mod leaves;
mod lent;
mod operands;

ghost use Rattle.std.specs.Prelude.{◌<◌};
ghost use Rattle.parts.specs.Part.{table};
ghost use Rattle.evaluator.specs.Columns.{columns};
ghost use Rattle.evaluator.specs.Lent.{table_of, columns_of};
ghost use Rattle.evaluator.specs.Compound.{CompoundOf};
ghost use Rattle.evaluator.specs.Valued.{Valued, Gathered};
ghost use Rattle.evaluator.specs.Published.{Published};

pub use items::value;
use lent::Lent;
use operands::Operands;
use parts::Code;
use values::{Scalar, Value};

impl<'a> Lent<'a> {
    // A list or an application, from its operands.
    fn compound(self, kind: usize, n: usize, o: Operands) -> Value
        ensures { CompoundOf self.entry.bytes.now self.entry.tasks.now self.entry.states.now kind n o result }
    {
        if kind == Code::LIST {
            values::many(o.list)
        } else {
            apply::applied(
                self.bytes,
                self.tasks,
                self.states,
                kind,
                n,
                o.first,
                o.second,
                o.third,
            )
        }
    }

    // The values of the `n` operands that end at `p`, from the last to the first, each evaluated once.
    #[cycle(gather_part_value)]
    fn gather(self, p: usize, n: usize, depth: usize) -> Operands
        requires { 0 < depth }
        ensures { Gathered (table_of self.entry) (columns_of self.entry) p n depth result }
    {
        let mut o = operands::none(n);
        let mut q = p;
        for k in (0..n).rev() {
            let v = self.part_value(q, depth - 1);
            o = operands::put(k, v, o);
            q = parts::back(self.cells, q);
        }
        o
    }

    // The value of the expression whose parts end before `end`, if it is at most `depth` deep.
    #[cycle(gather_part_value)]
    fn part_value(self, end: usize, depth: usize) -> Value
        ensures { Valued (table_of self.entry) (columns_of self.entry) end depth result }
    {
        if end == 0 || depth == 0 {
            return values::single(Scalar::Unknown);
        }
        let p = end - 1;
        let kind = parts::code(self.cells, p);
        if kind < Code::LIST {
            return self.leaf(kind, parts::load(self.cells, p));
        }
        let n = parts::count(self.cells, p);
        let o = self.gather(p, n, depth);
        self.compound(kind, n, o)
    }
}

// The value of the expression of a task whose parts end before `end`, if it is at most `depth` deep.
// The task is for what reads it: parameters (9.5, 1), which are left out.
pub fn value_of(
    cells: &[u32],
    bytes: &[u8],
    names: &[u32],
    tags: &[u32],
    nums: &[u32],
    tasks: &[u32],
    states: &[u32],
    task: usize,
    end: usize,
    depth: usize,
) -> Value
    ensures { Published (table cells.now bytes.now) (columns names.now tags.now nums.now tasks.now states.now) task end depth result }
{
    let lent = Lent {
        cells,
        bytes,
        names,
        tags,
        nums,
        tasks,
        states,
    };
    lent.part_value(end, depth)
}

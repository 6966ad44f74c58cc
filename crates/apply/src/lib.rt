// An operator of section 11, known by its number in the part table, applied to the values of its operands.
// Nothing is asked of the tables: on any contents each function ends and does nothing undefined.
#![tactic(auto)]

mod one;
mod states;
mod two;

ghost use Rattle.std.specs.Prelude.{[], ◌∷◌, ◌≤◌, take};
ghost use Rattle.apply.specs.Applies.{Applies};

use parts::Code;
use states::Tasks;
use values::{Scalar, Value};

impl<'a> Tasks<'a> {
    // The operators of three operands.
    fn three(self, kind: usize, a: Value, b: Value, c: Value) -> Value
        ensures { Applies self.entry.bytes.now self.entry.names.now self.entry.states.now kind (a ∷ b ∷ c ∷ []) result }
    {
        match kind {
            Code::IF => operators::if_else(a, b, c),
            _ => values::single(Scalar::Unknown),
        }
    }
}

// The operator applied to its `n` operands, the first three of which are given: none has more.
pub fn applied(
    bytes: &[u8],
    tasks: &[u32],
    states: &[u32],
    kind: usize,
    n: usize,
    a: Value,
    b: Value,
    c: Value,
) -> Value
    ensures { n ≤ 3 → Applies bytes.now tasks.now states.now kind (take n (a ∷ b ∷ c ∷ [])) result }
{
    let tasks = Tasks {
        bytes,
        names: tasks,
        states,
    };
    match n {
        1 => tasks.one(kind, a),
        2 => tasks.two(kind, a, b),
        3 => tasks.three(kind, a, b, c),
        _ => values::single(Scalar::Unknown),
    }
}

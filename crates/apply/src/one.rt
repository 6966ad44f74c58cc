// The operators of one operand.
ghost use Rattle.std.specs.Prelude.{[], ◌∷◌};
ghost use Rattle.paper_expressions.specs.Operators as paper;
ghost use Rattle.operators.specs.Means.{Means};
ghost use Rattle.apply.specs.Applies.{Applies};

use crate::states::{State, Tasks};
use operators::Extreme;
use parts::Code;
use values::{Scalar, Value};

// "max" (11.2.7)
fn max(bytes: &[u8], a: Value) -> Value
    ensures { Means bytes.now (paper.extreme paper.max) (a ∷ []) result }
{
    sequences::extreme(bytes, Extreme::Max, a)
}

// "min" (11.2.8)
fn min(bytes: &[u8], a: Value) -> Value
    ensures { Means bytes.now (paper.extreme paper.min) (a ∷ []) result }
{
    sequences::extreme(bytes, Extreme::Min, a)
}

impl<'a> Tasks<'a> {
    // The operator with the number `kind`, or unknown if none has one operand and that number.
    pub fn one(self, kind: usize, a: Value) -> Value
        ensures { Applies self.entry.bytes.now self.entry.names.now self.entry.states.now kind (a ∷ []) result }
    {
        match kind {
            Code::NEGATE => arithmetic::negate(a),
            Code::ISKNOWN => operators::isknown(a),
            Code::NOT => operators::not(a),
            Code::COUNT => sequences::count(a),
            Code::SUM => sequences::sum(a),
            Code::MAX => max(self.bytes, a),
            Code::MIN => min(self.bytes, a),
            Code::IS_DORMANT => self.is_in(State::DORMANT, a),
            Code::IS_IN_PROGRESS => self.is_in(State::IN_PROGRESS, a),
            Code::IS_DISCARDED => self.is_in(State::DISCARDED, a),
            Code::IS_COMPLETED => self.is_in(State::COMPLETED, a),
            _ => values::single(Scalar::Unknown),
        }
    }
}

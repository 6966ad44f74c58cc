// The operators of two operands.
ghost use Rattle.std.specs.Prelude.{[], ◌∷◌};
ghost use Rattle.apply.specs.Applies.{Applies};

use crate::states::Tasks;
use operators::{Arithmetic, Comparison};
use parts::Code;
use values::{Scalar, Value};

impl<'a> Tasks<'a> {
    // The operator with the number `kind`, or unknown if none has two operands and that number.
    pub fn two(self, kind: usize, a: Value, b: Value) -> Value
        ensures { Applies self.entry.bytes.now self.entry.names.now self.entry.states.now kind (a ∷ b ∷ []) result }
    {
        match kind {
            Code::PLUS => arithmetic::arithmetic(Arithmetic::Plus, a, b),
            Code::MINUS => arithmetic::arithmetic(Arithmetic::Minus, a, b),
            Code::TIMES => arithmetic::arithmetic(Arithmetic::Times, a, b),
            Code::DIVIDE => arithmetic::divide(a, b),
            Code::GREATER => comparison::compare(self.bytes, Comparison::Greater, a, b),
            Code::LESS => comparison::compare(self.bytes, Comparison::Less, a, b),
            Code::GREATER_OR_EQUAL => comparison::compare(
                self.bytes,
                Comparison::GreaterOrEqual,
                a,
                b,
            ),
            Code::LESS_OR_EQUAL => comparison::compare(self.bytes, Comparison::LessOrEqual, a, b),
            Code::EQUAL => comparison::compare(self.bytes, Comparison::Equal, a, b),
            Code::NOT_EQUAL => comparison::compare(self.bytes, Comparison::NotEqual, a, b),
            Code::AND => operators::and(a, b),
            Code::OR => operators::or(a, b),
            Code::INCLUDES => sequences::includes(self.bytes, a, b),
            Code::ONEOF => sequences::oneof(self.bytes, a, b),
            Code::NTH => sequences::nth(a, b),
            _ => values::single(Scalar::Unknown),
        }
    }
}

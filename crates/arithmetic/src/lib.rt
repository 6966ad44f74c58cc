// "+", "-", "*", "/" and unary minus, on values.
#![tactic(auto)]

mod calculation;

pub use calculation::{arithmetic, divide, negate};

// What it is to be an operator of section 11, and those on truth values.
#![tactic(auto)]

mod operator;
mod truth;

pub use operator::{Arithmetic, Comparison, Extreme};
pub use truth::{and, if_else, is_true, isknown, not, or};

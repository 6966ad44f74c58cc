// Lines that are typed, or come from a file: each is kept whole, and one that is too long is told of.
#![tactic(auto)]

mod lines;
pub mod prompt;

pub use lines::{Held, Line, drop, newline, next, nothing};

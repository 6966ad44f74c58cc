// Bytes and numbers in decimal digits, appended to a lent buffer. Each function answers the place behind what it wrote.
#![tactic(auto)]

mod append;
mod decimal;
mod signed;

pub use append::{byte, word};
pub use decimal::number;
pub use signed::{integer, real};

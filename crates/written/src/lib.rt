// The answers of the small program as bytes, appended to a lent buffer. Each function answers the place behind what it wrote.
#![tactic(auto)]

mod answers;
mod lists;
mod plain;
mod scalars;

pub use answers::{Answer, gives, refused};
pub use lists::{Notation, value_in};
pub use plain::value;

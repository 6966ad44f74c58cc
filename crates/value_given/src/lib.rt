// A value that a caller gives, as tags, numbers and bytes that are lent: whether it is of a declared type (9), whether it is within the limits (6), and the value.
#![tactic(auto)]

mod bounds;
mod cells;
mod kinds;
mod made;

pub use bounds::within;
pub use kinds::typed;
pub use made::value;

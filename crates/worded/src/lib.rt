// What guidelines are made of, in words on standard output: values, states, classes, types, and the names of tasks and data items.
// Nothing is asked of the tables: on any contents each ends and does nothing undefined.
#![tactic(auto)]

mod amounts;
mod called;
mod kinds;
mod series;

pub use amounts::value;
pub use called::{item, task};
pub use kinds::{class, declared, state};
pub use series::{comma, is_among};

// Tasks, data items and triggers by a name that is typed: which one it is; or that nothing has it, and the nearest that there is.
// Capital letters make no difference, as in expressions.
#![tactic(auto)]

mod lookup;
mod missing;
mod nearness;

pub use lookup::{Sort, count, find, handle_of, is_trigger};
pub use missing::{none, tell};
pub use nearness::{Near, is_meant, nearest};

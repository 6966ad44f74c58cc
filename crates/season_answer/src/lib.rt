// A sheet: what each column of its first line stands for. And the lines of its answer: the labels, the values of all data items, the actions that were reached, the cycles, and how it ended.
// Each function answers the place in the buffer behind what it wrote.
#![tactic(auto)]

mod called;
mod copied;
mod ends;
mod first_line;
mod found;
mod item_fields;
mod nearness;
mod places;
mod room;
mod tasks;

pub use copied::{labels, no_labels};
pub use ends::{ended, refused, unread};
pub use first_line::heading;
pub use found::Column;
pub use item_fields::{blanks, item_values};
pub use places::{counted, read as read_columns};
pub use room::Size;
pub use tasks::reached;

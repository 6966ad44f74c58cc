// What replay writes, as docs/REPLAY.md has it: appended to a lent buffer.
// Each function answers the place in the buffer behind what it wrote.
#![tactic(auto)]

mod replies;
mod rows;

pub use replies::{counted, refused_line, replied};
pub use rows::{row, shown};
pub use transcript_values::buffer;

// A lent buffer before standard output, and values as replay writes them into it: docs/REPLAY.md.
// Each function that writes answers the place in the buffer behind what it wrote.
#![tactic(auto)]

pub mod buffer;
mod lists;
mod literals;

pub use lists::value;

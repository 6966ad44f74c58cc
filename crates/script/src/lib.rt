// A script of calls, as docs/REPLAY.md has it: what stands at a place of it, and the place behind that.
// What is not there ends at NOWHERE, a place that no script has and behind which nothing is found.
#![tactic(auto)]

mod calls;
mod lexemes;
mod scripts;
mod values;

pub use calls::{Call, Line, line_at};
pub use scripts::is_script;
pub use values::Given;

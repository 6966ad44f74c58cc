// The public calls. What is lent to each: `parts`, `plan` and `waits` as load leaves them, the text bytes `texts` and the `state`; see docs/TABLES.md.
// No call asks anything of its arguments: whatever the tables hold, it is safe, and ends. Each stands with its contract in the crate that it comes
// from, and docs/CONTRACTS.md has the contracts in words.

#![tactic(auto)]

// 8.3.1: loads a guideline. All tables are blank where it is refused.
pub use load::load;

// 8.3.2: runs the engine over a lent Changes table, a slice of `change_rows::Row`; or with a table of its own.
pub use runs::{run, run_alone};

// 8.3.3: sets the engine time.
pub use clock::set_time;

// 8.3.4: confirms a task.
pub use confirming::confirm;

// 8.3.6: adds a value to a data item, given by its tags, numbers and bytes.
pub use adding::add;

// 8.3.7: sends a trigger.
pub use triggering::trigger;

// Reads a row: its component by kind and number, and its property, all counted from 0 as section 10 ranks them.
pub use row_read::read;

// Rows of the row table, read and searched: what the rules on names ask of one row, of the rows of one owner, and of the names.
// Nothing is asked of the table: on any contents the searches end and do nothing undefined.
#![tactic(auto)]

pub mod cells;
pub mod kinds;
pub mod least;
pub mod search;
pub mod texts;

// The tests of single rows against the rules on names, and the lists of the tasks and data items that they search.
#![tactic(auto)]

pub mod flaws;
pub mod lists;

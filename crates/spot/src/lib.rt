// For a person: line and column of a place, how its line is shown, and whether one name is a slip for another.
#![tactic(auto)]

pub mod lines;
pub mod near;
pub mod seen;
pub mod show;

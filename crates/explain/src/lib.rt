// What is wrong in a guideline that is refused, for a person: what could stand at a place, and how each terminal is spelt.
#![tactic(auto)]

pub mod offer;
pub mod quote;
pub mod spelling;

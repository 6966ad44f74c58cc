// How people are told: writing to standard output, the names of rows and their places, and what a name may have been meant for.
#![tactic(auto)]

pub mod slips;
pub mod write;

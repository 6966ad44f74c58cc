// The functors and operators of section 11 that go through a list.
#![tactic(auto)]

mod adding;
mod counting;
mod extremes;
mod membership;

pub use adding::sum;
pub use counting::{count, nth};
pub use extremes::extreme;
pub use membership::{includes, oneof};

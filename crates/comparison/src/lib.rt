// comp, which compares any two values, and the six comparisons.
#![tactic(auto)]

mod comparing;
mod relation;

pub use comparing::{comp, comp_scalars};
pub use relation::compare;

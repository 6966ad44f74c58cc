// The cells of the plan, the numbers that names mean, and what the rows count. Nothing is asked of the tables: on any contents it ends and does nothing undefined.
#![tactic(auto)]

pub mod cells;
pub mod found;
pub mod spot;

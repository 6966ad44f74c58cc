// What is wrong in the rows of a guideline, for a person: which rule on names a row breaks and where the other definition stands;
// what an expression is wanted for, and the first of its parts that has no type.
// Nothing is asked of the tables: on any contents the searches end and do nothing undefined.
#![tactic(auto)]

pub mod firsts;
pub mod rules;
pub mod types;

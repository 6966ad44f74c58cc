// What a person sees of a loaded guideline: its tree of tasks, the data items that are asked for, the tasks that wait to be confirmed.
// Nothing is asked of the tables: on any contents each ends and does nothing undefined.
#![tactic(auto)]

mod captions;
mod each;
mod owners;
mod requests;
mod tables;
mod tasks;
mod walk;

pub use requests::is_asked;
pub use tables::Tables;
pub use tasks::is_waiting;

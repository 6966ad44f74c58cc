// The names of a guideline that are read as text, as examine lists them: how often each stands there, and near what.
#![tactic(auto)]

pub mod told;

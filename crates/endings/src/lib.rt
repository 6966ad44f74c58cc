// How a run ended, as a number: document 01's endings, named once for the engine, the calls and what tells of them.
#![tactic(auto)]

#[derive(Drop)]
pub struct Ending {}

impl Ending {
    // it has not ended
    pub const NONE: u32 = 0;

    pub const QUIET: u32 = 1;

    pub const BOUNDED: u32 = 2;

    pub const EXCEPTION: u32 = 3;
}

// The properties and the kinds of components by their ranks in section 10, from 0, and the classes by their numbers: those that a guideline of the first edition has.
#[derive(Drop)]
pub struct Rank {}

impl Rank {
    pub const CLASS: u64 = 0;

    pub const NAME: u64 = 1;

    // of a task
    pub const STATE: u64 = 6;

    pub const ANTECEDENT_TASKS: u64 = 7;

    pub const PRECONDITION: u64 = 9;

    pub const WAIT_CONDITION: u64 = 10;

    pub const TRIGGER: u64 = 11;

    pub const TRIGGER_ACTIVE: u64 = 12;

    pub const POSTCONDITION: u64 = 13;

    pub const PARENT_PLAN: u64 = 15;

    pub const CONFIRMATORY: u64 = 16;

    pub const CONFIRMED: u64 = 17;

    pub const CYCLE_COUNT: u64 = 18;

    pub const NBR_CYCLES_VALUE: u64 = 19;

    pub const START_AT: u64 = 24;

    pub const TERMINAL: u64 = 26;

    pub const IN_PROGRESS_TIME: u64 = 29;

    pub const DISCARDED_TIME: u64 = 30;

    pub const COMPLETED_TIME: u64 = 31;

    pub const TERMINATE_CONDITION: u64 = 32;

    pub const SOURCES: u64 = 35;

    pub const ACTUAL_PROCEDURE: u64 = 40;

    // of a data item
    pub const TYPE: u64 = 41;

    pub const VALUE: u64 = 42;

    pub const REQUESTED: u64 = 50;

    // of a source
    pub const DATA_ITEM: u64 = 56;

    pub const MANDATORY: u64 = 57;
}

#[derive(Drop)]
pub struct Kind {}

impl Kind {
    pub const TASK: u8 = 0;

    pub const DATA_ITEM: u8 = 1;

    pub const SOURCE: u8 = 5;
}

#[derive(Drop)]
pub struct Class {}

impl Class {
    pub const DATA_ITEM: u32 = 1;

    pub const PLAN: u32 = 3;

    pub const ENQUIRY: u32 = 5;

    pub const ACTION: u32 = 6;

    pub const SOURCE: u32 = 7;
}

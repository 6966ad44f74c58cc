// Where the columns of the state table and of the plan begin, and what their cells hold, by name: docs/TABLES.md.
use limits::{DataItems, Tasks};

#[derive(Drop)]
pub struct Header {}

// The first cells of the state table: whether a guideline is loaded, the Exception flag, the engine time.
impl Header {
    pub const LOADED: usize = 0;

    pub const FLAG: usize = 1;

    pub const TIME: usize = 2;
}

#[derive(Drop)]
pub struct Property {}

// The tags of each property of the tasks; its numbers follow.
impl Property {
    pub const STATE: u16 = 8;

    pub const TRIGGER_ACTIVE: u16 = 72;

    pub const CONFIRMED: u16 = 136;

    pub const CYCLE_COUNT: u16 = 200;

    pub const NBR_CYCLES_VALUE: u16 = 264;

    pub const START_AT: u16 = 328;

    pub const IN_PROGRESS_TIME: u16 = 392;

    pub const DISCARDED_TIME: u16 = 456;

    pub const COMPLETED_TIME: u16 = 520;

    pub const ACTUAL_PROCEDURE: u16 = 584;
}

#[derive(Drop)]
pub struct StartAt {}

// The same of start_at and of cycle_count, which are read by their cells.
impl StartAt {
    pub const TAGS: usize = Property::START_AT as usize;

    pub const NUMBERS: usize = StartAt::TAGS + Tasks::LIMIT;
}

#[derive(Drop)]
pub struct Counts {}

impl Counts {
    pub const TAGS: usize = Property::CYCLE_COUNT as usize;

    pub const NUMBERS: usize = Counts::TAGS + Tasks::LIMIT;
}

#[derive(Drop)]
pub struct Requested {}

// `requested` of the data items.
impl Requested {
    pub const TAGS: usize = 648;

    pub const NUMBERS: usize = 712;
}

#[derive(Drop)]
pub struct Values {}

// The values of the data items.
impl Values {
    pub const TAGS: usize = 776;

    pub const NUMBERS: usize = 1864;

    // the cells of one item: its shape, and one for each element
    pub const CELLS: usize = 17;

    // those of all items
    pub const ALL: usize = Values::CELLS * DataItems::LIMIT;
}

#[derive(Drop)]
pub struct Table {}

impl Table {
    // the least length of the state table
    pub const CELLS: usize = Values::NUMBERS + Values::ALL;
}

#[derive(Drop)]
pub struct Tag {}

// What a row is.
impl Tag {
    pub const UNKNOWN: usize = 1;

    pub const TRUTH: usize = 2;

    pub const COUNT: usize = 3;

    pub const TIME: usize = 4;

    pub const STATE: usize = 5;
}

#[derive(Drop)]
pub struct Truth {}

// The number of a row that is true or false.
impl Truth {
    pub const TRUE: u32 = 1;
}

#[derive(Drop)]
pub struct State {}

impl State {
    pub const DORMANT: usize = 1;

    pub const IN_PROGRESS: usize = 2;

    pub const DISCARDED: usize = 3;

    pub const COMPLETED: usize = 4;
}

#[derive(Drop)]
pub struct Class {}

impl Class {
    pub const PLAN: usize = 1;

    pub const ACTION: usize = 2;

    pub const ENQUIRY: usize = 3;
}

#[derive(Drop)]
pub struct Answer {}

// What a cell of the plan tells of a row that is true or false.
impl Answer {
    pub const YES: u32 = 1;

    pub const NO: u32 = 2;
}

#[derive(Drop)]
pub struct Plan {}

// The columns of the plan.
impl Plan {
    // the number of tasks, and of data items
    pub const TASKS: usize = 0;

    pub const ITEMS: usize = 1;

    // of a task: its parent and one; whether it has a trigger, is terminal, is to be confirmed; its class
    pub const PARENT: usize = 8;

    pub const TRIGGERED: usize = 40;

    pub const TERMINAL: usize = 72;

    pub const CONFIRMATORY: usize = 136;

    pub const CLASS: usize = 168;

    // the tasks, parents first
    pub const ORDER: usize = 104;

    // the first source of a task, and how many it has; of a source, its data item, and whether it is mandatory
    pub const FIRST_SOURCE: usize = 200;

    pub const SOURCES: usize = 232;

    pub const SOURCE_ITEM: usize = 264;

    pub const MANDATORY: usize = 392;

    // where the expressions of a task end
    pub const PRECONDITION: usize = 520;

    pub const WAIT_CONDITION: usize = 552;

    pub const TERMINATE: usize = 584;

    // the first assignment of a task, and how many it has; of an assignment, its data item, where its expression ends, and its task
    pub const FIRST_ASSIGNMENT: usize = 616;

    pub const ASSIGNMENTS: usize = 648;

    pub const ASSIGNED_ITEM: usize = 680;

    pub const ASSIGNED_END: usize = 936;

    pub const ASSIGNING_TASK: usize = 1384;

    // the names of the tasks and their triggers; the names and declared types of the data items
    pub const TASK_NAME: usize = 1192;

    pub const TRIGGER: usize = 1224;

    pub const ITEM_NAME: usize = 1256;

    pub const ITEM_TYPE: usize = 1320;

    // the least length
    pub const CELLS: usize = 1640;
}

// A row of the Changes table, and its cells by name: docs/TABLES.md.
ghost use Rattle.std.specs.Prelude.{◌≡◌, ◌+◌, ◌*◌, ◌≤◌, cond, get_or, length};
ghost use Rattle.changes.specs.Made.{row};

use limits::{DataItems, Tasks};
use state::{Property, Requested, Values};

// The numbers of the component, the property, the tag and the new value.
#[derive(Clone, Copy, PartialEq, Eq)]
pub struct Row {
    pub component: u32,
    pub property: u32,
    pub tag: u32,
    pub number: u32,
}

impl Row {
    // The task is in this state.
    pub fn state(component: u32, state: u32) -> Row
        ensures { result ≡ row component 8 5 state }
    {
        Row {
            component,
            property: Column::STATE,
            tag: Tag::STATE,
            number: state,
        }
    }

    pub fn unknown(component: u32, property: u32) -> Row
        ensures { result ≡ row component property 1 0 }
    {
        Row {
            component,
            property,
            tag: Tag::UNKNOWN,
            number: 0,
        }
    }

    pub fn truth(component: u32, property: u32, is: bool) -> Row
        ensures { result ≡ row component property 2 (cond is 1 0) }
    {
        Row {
            component,
            property,
            tag: Tag::TRUTH,
            number: u32::from(is),
        }
    }

    pub fn count(component: u32, property: u32, number: u32) -> Row
        ensures { result ≡ row component property 3 number }
    {
        Row {
            component,
            property,
            tag: Tag::COUNT,
            number,
        }
    }

    pub fn time(component: u32, property: u32, time: u32) -> Row
        ensures { result ≡ row component property 4 time }
    {
        Row {
            component,
            property,
            tag: Tag::TIME,
            number: time,
        }
    }

    // The value of the item is that of the assignment with this number.
    pub fn assigned(component: u32, assignment: u32) -> Row
        ensures { result ≡ row component 776 4 assignment }
    {
        Row {
            component,
            property: Column::VALUE,
            tag: Tag::ASSIGNED,
            number: assignment,
        }
    }

    // The row `i` of the table.
    pub fn at(o: &[u32], i: usize) -> Row
        requires { 4 * i + 4 ≤ length o.now }
        ensures component { result.component ≡ get_or o.now (4 * i) 0 }
        ensures property { result.property ≡ get_or o.now (4 * i + 1) 0 }
        ensures tag { result.tag ≡ get_or o.now (4 * i + 2) 0 }
        ensures number { result.number ≡ get_or o.now (4 * i + 3) 0 }
    {
        let b = Row::CELLS * i;
        Row {
            component: o[b],
            property: o[b + Row::PROPERTY],
            tag: o[b + Row::TAG],
            number: o[b + Row::NUMBER],
        }
    }

    // the cells of a row
    pub const CELLS: usize = 4;

    // in a row: the component, the property, the tag and the number
    pub const PROPERTY: usize = 1;

    pub const TAG: usize = 2;

    pub const NUMBER: usize = 3;

    // a task is its number, below this; a data item so much and its number
    pub const TASKS: u32 = Tasks::LIMIT as u32;

    pub const ITEM: u32 = 65_536;

    pub const ITEMS: u32 = DataItems::LIMIT as u32;

    // behind the last data item
    pub const END: u32 = Row::ITEM + Row::ITEMS;
}

#[derive(Drop)]
pub struct Column {}

// A property: where its tags begin in the state table.
impl Column {
    pub const STATE: u32 = Property::STATE as u32;

    pub const TRIGGER_ACTIVE: u32 = Property::TRIGGER_ACTIVE as u32;

    pub const CONFIRMED: u32 = Property::CONFIRMED as u32;

    pub const CYCLE_COUNT: u32 = Property::CYCLE_COUNT as u32;

    pub const NBR_CYCLES_VALUE: u32 = Property::NBR_CYCLES_VALUE as u32;

    pub const START_AT: u32 = Property::START_AT as u32;

    pub const IN_PROGRESS_TIME: u32 = Property::IN_PROGRESS_TIME as u32;

    pub const DISCARDED_TIME: u32 = Property::DISCARDED_TIME as u32;

    pub const COMPLETED_TIME: u32 = Property::COMPLETED_TIME as u32;

    pub const ACTUAL_PROCEDURE: u32 = Property::ACTUAL_PROCEDURE as u32;

    pub const REQUESTED: u32 = Requested::TAGS as u32;

    pub const VALUE: u32 = Values::TAGS as u32;
}

#[derive(Drop)]
pub struct Tag {}

// What the new row is.
impl Tag {
    pub const UNKNOWN: u32 = state::Tag::UNKNOWN as u32;

    pub const TRUTH: u32 = state::Tag::TRUTH as u32;

    pub const COUNT: u32 = state::Tag::COUNT as u32;

    pub const TIME: u32 = state::Tag::TIME as u32;

    pub const STATE: u32 = state::Tag::STATE as u32;

    // of a value: the number of the assignment follows
    pub const ASSIGNED: u32 = 4;
}

#[derive(Drop)]
pub struct State {}

impl State {
    pub const DORMANT: u32 = state::State::DORMANT as u32;

    pub const IN_PROGRESS: u32 = state::State::IN_PROGRESS as u32;

    pub const DISCARDED: u32 = state::State::DISCARDED as u32;

    pub const COMPLETED: u32 = state::State::COMPLETED as u32;
}

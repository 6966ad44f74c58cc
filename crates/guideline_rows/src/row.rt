// The row table by name: the cells of a row, and its kind, the number of its word's terminal.
use parts::Declared;
use terminals::Terminal;

#[derive(Drop)]
pub struct Row;

impl Row {
    // the cells of a row
    pub const CELLS: usize = 8;

    pub const KIND: usize = 0;

    pub const WORD: usize = 1;

    pub const NAME: usize = 2;

    pub const PLACE: usize = 3;

    pub const FIRST: usize = 4;

    pub const START: usize = 5;

    pub const END: usize = 6;

    pub const FLAG: usize = 7;
}

#[derive(Drop)]
pub struct Kind;

impl Kind {
    pub const PLAN: usize = Terminal::PLAN as usize;

    pub const ACTION: usize = Terminal::ACTION as usize;

    pub const ENQUIRY: usize = Terminal::ENQUIRY as usize;

    pub const DATA: usize = Terminal::DATA as usize;

    pub const CAPTION: usize = Terminal::CAPTION as usize;

    pub const DESCRIPTION: usize = Terminal::DESCRIPTION as usize;

    pub const PRECONDITION: usize = Terminal::PRECONDITION as usize;

    pub const WAIT_CONDITION: usize = Terminal::WAIT_CONDITION as usize;

    pub const POSTCONDITION: usize = Terminal::POSTCONDITION as usize;

    pub const TERMINATE: usize = Terminal::TERMINATE as usize;

    pub const TRIGGER: usize = Terminal::TRIGGER as usize;

    pub const COMPONENT: usize = Terminal::COMPONENT as usize;

    pub const SCHEDULE_CONSTRAINT: usize = Terminal::SCHEDULE_CONSTRAINT as usize;

    pub const TERMINAL: usize = Terminal::TERMINAL as usize;

    pub const SOURCE: usize = Terminal::SOURCE as usize;

    pub const MANDATORY: usize = Terminal::MANDATORY as usize;

    // an assignment
    pub const EQUALS: usize = Terminal::EQUALS as usize;
}

// The last cell of a row: yes or no, or the declared type of a data item.
#[derive(Drop)]
pub struct Flag;

impl Flag {
    pub const YES: u8 = 1;

    pub const NO: u8 = 2;

    pub const TEXT: u8 = Declared::TEXT as u8;

    pub const INTEGER: u8 = Declared::INTEGER as u8;

    pub const BOOLEAN: u8 = Declared::BOOLEAN as u8;

    pub const DATETIME: u8 = Declared::DATETIME as u8;

    pub const DATE: u8 = Declared::DATE as u8;

    pub const TIME: u8 = Declared::TIME as u8;

    pub const REAL: u8 = Declared::REAL as u8;

    pub const SETOF_TEXT: u8 = Declared::SETOF_TEXT as u8;

    pub const SETOF_INTEGER: u8 = Declared::SETOF_INTEGER as u8;

    pub const SETOF_REAL: u8 = Declared::SETOF_REAL as u8;
}

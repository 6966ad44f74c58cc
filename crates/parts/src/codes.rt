// The number of each kind of part, as `specs/Codes.antt` gives them. 0 is no part.
ghost use Rattle.std.specs.Prelude.{◌≡◌};
ghost use Rattle.parts.specs.Codes.{declared_codes};

#[derive(Drop)]
pub struct Code;

impl Code {
    pub const ATOM: usize = 1;

    pub const INTEGER: usize = 2;

    pub const FLOAT: usize = 3;

    pub const STRING: usize = 4;

    pub const LIST: usize = 5;
    // the operators, ten numbers for each list of allowed types
    pub const PLUS: usize = 10;

    pub const MINUS: usize = 11;

    pub const TIMES: usize = 12;

    pub const DIVIDE: usize = 20;

    pub const GREATER: usize = 30;

    pub const LESS: usize = 31;

    pub const GREATER_OR_EQUAL: usize = 32;

    pub const LESS_OR_EQUAL: usize = 33;

    pub const EQUAL: usize = 34;

    pub const NOT_EQUAL: usize = 35;

    pub const AND: usize = 40;

    pub const OR: usize = 41;

    pub const INCLUDES: usize = 50;

    pub const ONEOF: usize = 60;

    pub const IF: usize = 70;

    pub const NEGATE: usize = 80;

    pub const ISKNOWN: usize = 90;

    pub const NOT: usize = 100;

    pub const COUNT: usize = 110;

    pub const SUM: usize = 120;

    pub const MAX: usize = 130;

    pub const MIN: usize = 131;

    pub const NTH: usize = 140;

    pub const IS_DORMANT: usize = 150;

    pub const IS_IN_PROGRESS: usize = 151;

    pub const IS_DISCARDED: usize = 152;

    pub const IS_COMPLETED: usize = 153;
    // a functor that section 11 doesn't have
    pub const NO_SUCH: usize = 250;
}

// The lists of allowed types of section 11, by the number that its operators have without their last digit.
#[derive(Drop)]
pub struct Family;

impl Family {
    // how many numbers each has
    pub const SIZE: usize = 10;

    pub const ARITHMETIC: usize = Code::PLUS / Family::SIZE;

    pub const DIVIDE: usize = Code::DIVIDE / Family::SIZE;

    pub const COMPARISON: usize = Code::GREATER / Family::SIZE;

    pub const LOGIC: usize = Code::AND / Family::SIZE;

    pub const INCLUDES: usize = Code::INCLUDES / Family::SIZE;

    pub const ONEOF: usize = Code::ONEOF / Family::SIZE;

    pub const IF: usize = Code::IF / Family::SIZE;

    pub const NEGATE: usize = Code::NEGATE / Family::SIZE;

    pub const ISKNOWN: usize = Code::ISKNOWN / Family::SIZE;

    pub const NOT: usize = Code::NOT / Family::SIZE;

    pub const COUNT: usize = Code::COUNT / Family::SIZE;

    pub const SUM: usize = Code::SUM / Family::SIZE;

    pub const EXTREME: usize = Code::MAX / Family::SIZE;

    pub const NTH: usize = Code::NTH / Family::SIZE;

    pub const TASK_STATE: usize = Code::IS_DORMANT / Family::SIZE;
}

// The number of each declared type of a data item.
#[derive(Drop)]
pub struct Declared;

impl Declared {
    // no type
    pub const NONE: u32 = 0;

    pub const TEXT: u32 = 1;

    pub const INTEGER: u32 = 2;

    pub const BOOLEAN: u32 = 3;

    pub const DATETIME: u32 = 4;

    pub const DATE: u32 = 5;

    pub const TIME: u32 = 6;

    pub const REAL: u32 = 7;

    pub const SETOF_TEXT: u32 = 8;

    pub const SETOF_INTEGER: u32 = 9;

    pub const SETOF_REAL: u32 = 10;

    // All of them, in the order of the definitions.
    pub fn numbers() -> [u32; 10]
        ensures { result ≡ declared_codes }
    {
        [
            Declared::TEXT,
            Declared::INTEGER,
            Declared::BOOLEAN,
            Declared::DATETIME,
            Declared::DATE,
            Declared::TIME,
            Declared::REAL,
            Declared::SETOF_TEXT,
            Declared::SETOF_INTEGER,
            Declared::SETOF_REAL,
        ]
    }
}

// Every limit of reading and of the engine, named once, on the type that it limits; and tied once, by the function beside it, to the definitions.
// The limits of values stand on the types of values: integers and reals on numbers::Num, texts on values::Handle, lists on values::List.
// The numbers of the refusals stand in refusal.rt.
#![tactic(auto)]

mod refusal;

ghost use Rattle.std.specs.Prelude.{◌≡◌, ◌*◌};
ghost use Rattle.limits.specs.Limits.{row_cells, cycle_limit, time_limit, wait_side, change_rows};
ghost use Rattle.paper_guideline.specs.Limits.{guideline_limit, token_limit, bracket_limit, task_limit, data_item_limit};
ghost use Rattle.paper_guideline.specs.Limits.{part_limit, depth_limit, assignment_limit, source_limit, decimal_limit};

pub use refusal::Refusal;

#[derive(Drop)]
pub struct Guideline;

impl Guideline {
    // bytes of a guideline text
    pub const LIMIT: usize = 16_384;

    // the last byte that a text may have: no definition names it, so the contracts that use it tie it
    pub const LAST_BYTE: u8 = 127;

    pub fn bytes() -> usize
        ensures { result ≡ guideline_limit }
    {
        Guideline::LIMIT
    }
}

#[derive(Drop)]
pub struct TokenList;

impl TokenList {
    // tokens of a text
    pub const LIMIT: usize = 4_096;

    pub fn tokens() -> usize
        ensures { result ≡ token_limit }
    {
        TokenList::LIMIT
    }
}

#[derive(Drop)]
pub struct Brackets;

impl Brackets {
    // brackets open at once, round and square
    pub const LIMIT: usize = 24;

    pub fn open() -> usize
        ensures { result ≡ bracket_limit }
    {
        Brackets::LIMIT
    }
}

#[derive(Drop)]
pub struct Tasks;

impl Tasks {
    // tasks, the root among them
    pub const LIMIT: usize = 32;

    pub fn tasks() -> usize
        ensures { result ≡ task_limit }
    {
        Tasks::LIMIT
    }
}

#[derive(Drop)]
pub struct DataItems;

impl DataItems {
    // data items
    pub const LIMIT: usize = 64;

    pub fn items() -> usize
        ensures { result ≡ data_item_limit }
    {
        DataItems::LIMIT
    }
}

#[derive(Drop)]
pub struct Rows;

impl Rows {
    // cells of the row table: eight for each row, of which every three tokens make at most one
    pub const CELLS: usize = TokenList::LIMIT / 3 * 8;

    pub fn cells() -> usize
        ensures { result ≡ row_cells }
    {
        Rows::CELLS
    }
}

#[derive(Drop)]
pub struct Expressions;

impl Expressions {
    // expression parts, in all expressions together
    pub const PARTS: usize = 1_024;

    pub fn parts() -> usize
        ensures { result ≡ part_limit }
    {
        Expressions::PARTS
    }

    // the cells of their table, four a part
    pub const CELLS: usize = Expressions::PARTS * 4;

    pub fn cells() -> usize
        ensures { result ≡ part_limit * 4 }
    {
        Expressions::CELLS
    }
}

#[derive(Drop)]
pub struct Expression;

impl Expression {
    // how deep one expression goes
    pub const DEPTH: usize = 24;

    pub fn depth() -> usize
        ensures { result ≡ depth_limit }
    {
        Expression::DEPTH
    }
}

#[derive(Drop)]
pub struct Assignments;

impl Assignments {
    // assignments, in all postconditions
    pub const LIMIT: usize = 256;

    pub fn assignments() -> usize
        ensures { result ≡ assignment_limit }
    {
        Assignments::LIMIT
    }
}

#[derive(Drop)]
pub struct Sources;

impl Sources {
    // sources, in all tasks
    pub const LIMIT: usize = 128;

    pub fn sources() -> usize
        ensures { result ≡ source_limit }
    {
        Sources::LIMIT
    }
}

#[derive(Drop)]
pub struct Literal;

impl Literal {
    // digits of a literal after its point
    pub const DECIMALS: usize = 3;

    pub fn decimals() -> usize
        ensures { result ≡ decimal_limit }
    {
        Literal::DECIMALS
    }
}

#[derive(Drop)]
pub struct Run;

impl Run {
    // cycles in one run
    pub const CYCLES: u32 = 256;

    pub fn cycles() -> u32
        ensures { result ≡ cycle_limit }
    {
        Run::CYCLES
    }
}

#[derive(Drop)]
pub struct EngineTime;

impl EngineTime {
    // the latest engine time, in whole seconds
    pub const LIMIT: u64 = 4_294_967_295;

    pub fn latest() -> u64
        ensures { result ≡ time_limit }
    {
        EngineTime::LIMIT
    }
}

#[derive(Drop)]
pub struct Waits;

impl Waits {
    // rows of the square table of who waits for whom, and places in a row
    pub const SIDE: usize = 32;

    // as many bytes as other languages lend for it
    pub const BYTES: usize = Waits::SIDE * Waits::SIDE;

    pub fn side() -> usize
        ensures { result ≡ wait_side }
    {
        Waits::SIDE
    }
}

#[derive(Drop)]
pub struct Changes;

impl Changes {
    // rows that a lent Changes table has at least
    pub const ROWS: usize = 1_024;

    pub fn rows() -> usize
        ensures { result ≡ change_rows }
    {
        Changes::ROWS
    }
}

// A mark for each task, and who waits for whom.
pub type Marks = [bool; Tasks::LIMIT];

pub type WaitTable = [[bool; Waits::SIDE]; Waits::SIDE];

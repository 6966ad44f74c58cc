// What reading a row answers, and the rows that two cells tell: those that move, and those that are yes or no.
#![tactic(auto)]

mod ranks;

ghost use Rattle.row_shown.specs.Shown.{Plain, OfScalar, NameOf};
ghost use Rattle.row_shown.specs.Cells.{CountOf, ByCells, ByAnswer};

use numbers::Num;
pub use ranks::{Class, Kind, Rank};
use state::{Answer, Tag, Truth};
use values::{Scalar, Value};

// By the numbers of document 01; a component by its kind and its number.
#[derive(Clone, Copy)]
pub enum Shown {
    NoRow,
    There,
    OfValue,
    OfState(u32),
    OfClass(u32),
    OfType(u32),
    OfTime(u32),
    OfComponent(u8, u32),
    Refused(u8),
}

// The value counts where it is one that is shown.
#[derive(Drop)]
pub struct Row {
    pub shown: Shown,
    pub value: Value,
}

const UNKNOWN: u32 = Tag::UNKNOWN as u32;

const TRUTH: u32 = Tag::TRUTH as u32;

const COUNT: u32 = Tag::COUNT as u32;

const TIME: u32 = Tag::TIME as u32;

const STATE: u32 = Tag::STATE as u32;

// An answer that is no value.
pub fn plain(shown: Shown) -> Row
    ensures { Plain shown result }
{
    Row {
        shown,
        value: values::single(Scalar::Unknown),
    }
}

// The answer that is this scalar.
pub fn scalar(s: Scalar) -> Row
    ensures { OfScalar s result }
{
    Row {
        shown: Shown::OfValue,
        value: values::single(s),
    }
}

// The text with the handle `h`.
pub fn name(h: usize) -> Row
    ensures { NameOf h result }
{
    scalar(Scalar::Text(values::handle_of(h)))
}

// A count: no task cycles, so it is 0 or 1.
fn count(x: u32) -> Row
    ensures { CountOf x result }
{
    let z = if x == 1 { 1 } else { 0 };
    scalar(Scalar::Int(Num { z }))
}

// The row with the tag `k` and the number `x`.
pub fn by_cells(k: u32, x: u32) -> Row
    ensures { ByCells k x result }
{
    match k {
        UNKNOWN => scalar(Scalar::Unknown),
        TRUTH => scalar(Scalar::Truth(x == Truth::TRUE)),
        COUNT => count(x),
        TIME => plain(Shown::OfTime(x)),
        STATE => plain(Shown::OfState(x)),
        _ => plain(Shown::NoRow),
    }
}

// The row that a cell of the plan stands for.
pub fn by_answer(x: u32) -> Row
    ensures { ByAnswer x result }
{
    match x {
        Answer::YES => scalar(Scalar::Truth(true)),
        Answer::NO => scalar(Scalar::Truth(false)),
        _ => plain(Shown::NoRow),
    }
}

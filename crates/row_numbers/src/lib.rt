// What reading a row answers, as numbers, cells and bytes: for other languages.
#![tactic(auto)]

ghost use Rattle.std.specs.Prelude.{◌≡◌};
ghost use Rattle.paper_calls.specs.Numbers.{state_number, class_number, type_number};
ghost use Rattle.state.specs.Cell.{state_of};
ghost use Rattle.row_shown.specs.Shown.{class_of, type_of, kind-of};
ghost use Rattle.row_numbers.specs.OneOf.{one_of};
ghost use Rattle.row_numbers.specs.Told.{kind_number, valueb, Numbered, Written, Tells};

use items::Form;
use parts::Declared;
use row_shown::{Class, Kind, Row, Shown};
use state::State;

// number: 0, or that of the refusal; shown, first and second: the case of what is shown, and its numbers.
#[repr(C)]
#[derive(Drop)]
pub struct Answer {
    pub number: u32,
    pub shown: u32,
    pub first: u32,
    pub second: u32,
}

fn made(number: u32, shown: u32, first: u32, second: u32) -> Answer
    ensures { (result.number ≡ number) × (result.shown ≡ shown) × (result.first ≡ first) × (result.second ≡ second) }
{
    Answer {
        number,
        shown,
        first,
        second,
    }
}

// The cases of what is shown, by their numbers.
#[derive(Drop)]
struct Case {}

impl Case {
    const NO_ROW: u32 = 0;

    const THERE: u32 = 1;

    const VALUE: u32 = 2;

    const STATE: u32 = 3;

    const CLASS: u32 = 4;

    const TYPE: u32 = 5;

    const TIME: u32 = 6;

    const COMPONENT: u32 = 7;
}

// The first and the last state, and of section 10 the last class, and the first and the last kind.
const FIRST_STATE: u32 = State::DORMANT as u32;

const LAST_STATE: u32 = State::COMPLETED as u32;

const LAST_CLASS: u32 = 10;

const FIRST_KIND: u32 = Kind::TASK as u32;

const LAST_KIND: u32 = 6;

// A number of a list: `n`, or the last where it stands for none before.
fn one_of(first: u32, last: u32, n: u32) -> u32
    ensures { result ≡ one_of first last n }
{
    if (first..=last).contains(&n) { n } else { last }
}

// The number of the state that `n` stands for; so for classes, types and kinds.
fn state_number(n: u32) -> u32
    ensures { result ≡ state_number (state_of n) }
{
    one_of(FIRST_STATE, LAST_STATE, n)
}

fn class_number(n: u32) -> u32
    ensures { result ≡ class_number (class_of n) }
{
    one_of(Class::DATA_ITEM, LAST_CLASS, n)
}

fn type_number(n: u32) -> u32
    ensures { result ≡ type_number (type_of n) }
{
    one_of(Declared::TEXT, Declared::SETOF_REAL, n)
}

fn kind_number(n: u8) -> u32
    ensures { result ≡ kind_number (kind-of n) }
{
    one_of(FIRST_KIND, LAST_KIND, u32::from(n))
}

fn by_case(s: Shown) -> Answer
    ensures { Numbered s result }
{
    match s {
        Shown::NoRow => made(0, Case::NO_ROW, 0, 0),
        Shown::There => made(0, Case::THERE, 0, 0),
        Shown::OfValue => made(0, Case::VALUE, 0, 0),
        Shown::OfState(n) => made(0, Case::STATE, state_number(n), 0),
        Shown::OfClass(n) => made(0, Case::CLASS, class_number(n), 0),
        Shown::OfType(n) => made(0, Case::TYPE, type_number(n), 0),
        Shown::OfTime(n) => made(0, Case::TIME, n, 0),
        Shown::OfComponent(k, n) => made(0, Case::COMPONENT, kind_number(k), n),
        Shown::Refused(n) => made(u32::from(n), Case::NO_ROW, 0, 0),
    }
}

fn is_value(s: Shown) -> bool
    ensures { result ≡ valueb s }
{
    matches!(s, Shown::OfValue)
}

// Writes the value that is shown, in its one form; zeros where none is shown.
fn write(b: &[u8], r: Row, cells: &mut [u32], out: &mut [u8])
    ensures { Written b.now r cells.new out.new }
{
    if is_value(r.shown) {
        items::encode(b, r.value, 0, cells, out);
    } else {
        cells.fill(0);
        out.fill(0);
    }
}

// The answer, and the value that is shown: its texts have their places from 0 on among `out`.
pub fn tell(b: &[u8], r: Row, cells: &mut [u32; Form::CELLS], out: &mut [u8; Form::BYTES]) -> Answer
    ensures { Tells b.now r cells.new out.new result }
{
    let answer = by_case(r.shown);
    write(b, r, cells, out);
    answer
}

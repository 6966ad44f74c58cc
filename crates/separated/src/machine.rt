// What a byte does to a record: a machine over six modes and five kinds of bytes.
ghost use Rattle.std.specs.Prelude.{◌≡◌};
ghost use Rattle.separated.specs.Machine.{kind_of, step_of};

#[derive(Drop)]
pub struct Byte {}

impl Byte {
    pub const QUOTE: u8 = 34;

    pub const NEWLINE: u8 = 10;

    pub const RETURN: u8 = 13;
}

#[derive(Clone, Copy)]
pub enum Kind {
    Quote,
    Newline,
    Return,
    Separator,
    Other,
}

// Where in a record the reader stands: before a field, in one without quotes, between quotes, behind a quote that closes the field or is the
// first of two, behind a carriage return that a newline has to follow, or in a line that is no record.
#[derive(Clone, Copy)]
pub enum Mode {
    Before,
    Bare,
    Quoted,
    Closed,
    Returned,
    Lost,
}

// What is done with the byte: it is kept, it is passed over, it ends the field, it ends the field and the record, or no record has it here.
#[derive(Clone, Copy)]
pub enum Act {
    Keep,
    Pass,
    End,
    Last,
    Fault,
}

#[derive(Clone, Copy)]
pub struct Move {
    pub act: Act,
    pub mode: Mode,
}

pub fn kind_of(b: u8, separator: u8) -> Kind
    ensures { result ≡ kind_of b separator }
{
    match b {
        _ if b == separator => Kind::Separator,
        Byte::QUOTE => Kind::Quote,
        Byte::NEWLINE => Kind::Newline,
        Byte::RETURN => Kind::Return,
        _ => Kind::Other,
    }
}

// One byte more.
pub fn step(m: Mode, k: Kind) -> Move
    ensures { result ≡ step_of m k }
{
    let (act, mode) = match (m, k) {
        (Mode::Before, Kind::Quote) => (Act::Pass, Mode::Quoted),
        (Mode::Quoted, Kind::Quote) => (Act::Pass, Mode::Closed),
        (Mode::Quoted, _) => (Act::Keep, Mode::Quoted),
        (Mode::Closed, Kind::Quote) => (Act::Keep, Mode::Quoted),
        (_, Kind::Newline) => (Act::Last, Mode::Before),
        (Mode::Lost, _) => (Act::Pass, Mode::Lost),
        (Mode::Bare, Kind::Quote) | (Mode::Closed, Kind::Other) | (Mode::Returned, _) => {
            (Act::Fault, Mode::Lost)
        }
        (Mode::Before | Mode::Bare | Mode::Closed, Kind::Separator) => (Act::End, Mode::Before),
        (Mode::Before | Mode::Bare | Mode::Closed, Kind::Return) => (Act::Pass, Mode::Returned),
        (Mode::Before | Mode::Bare, Kind::Other) => (Act::Keep, Mode::Bare),
    };
    Move { act, mode }
}

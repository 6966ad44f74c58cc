// One element of a value, by the byte that it begins with.
ghost use Rattle.std.specs.Prelude.{◌≡◌, ◌<◌, pos};
ghost use Rattle.typed_value.specs.Onward.{Onward};
ghost use Rattle.typed_value.specs.Elements.{slip_of, other_at, element_at};
ghost use Rattle.typed_value.specs.Readings.{element_of, text_after};
ghost use Rattle.typed_value.specs.declared.steps.Slip.TheVariants.{Fine};

use crate::lexemes::{after, is_digit, is_letter};
use crate::steps::Slip;
use crate::{numerals, texts, words};
use parts::byte;

#[derive(Drop)]
pub struct Room {}

// What can be handed on: more than is within the limits, so that what passes them is refused.
impl Room {
    // elements of a list
    pub const ELEMENTS: usize = 20;

    // cells of a value: its shape and its elements
    pub const CELLS: usize = Room::ELEMENTS + 1;

    // bytes for the text of one element, and those of them that a handle can tell
    pub const TEXT: usize = 64;

    pub const KEPT: usize = 63;

    // bytes for the texts of all
    pub const BYTES: usize = Room::ELEMENTS * Room::TEXT;
}

#[derive(Drop)]
pub struct Kind {}

// The tags of elements.
impl Kind {
    pub const UNKNOWN: u32 = 0;

    pub const TRUTH: u32 = 1;

    pub const INTEGER: u32 = 2;

    pub const REAL: u32 = 3;

    pub const TEXT: u32 = 4;
}

// An element's cells, the place behind it, and what is wrong there.
#[derive(Drop)]
pub struct Element {
    pub tag: u32,
    pub number: i64,
    pub place: usize,
    pub slip: Slip,
}

pub fn found(tag: u32, number: i64, place: usize) -> Element
    ensures { result ≡ record { tag = tag; number = number; place = place; slip = Fine } }
{
    Element {
        tag,
        number,
        place,
        slip: Slip::Fine,
    }
}

pub fn wrong(place: usize, slip: Slip) -> Element
    ensures { result ≡ record { tag = 0; number = pos 0; place = place; slip = slip } }
{
    Element {
        tag: Kind::UNKNOWN,
        number: 0,
        place,
        slip,
    }
}

// What is wrong with a byte that begins no element.
fn slip_of(b: u8) -> Slip
    ensures { result ≡ slip_of b }
{
    match b {
        b'[' => Slip::Nested,
        b'.' => Slip::Digits,
        b'\'' => Slip::Bare,
        _ => Slip::Missing,
    }
}

// What stands here and begins no element but, it may be, a word.
fn other(s: &[u8], at: usize, bytes: &mut [u8], i: usize) -> Element
    requires { i < 20 }
    ensures { Onward s.now at result.place × (result ≡ element_of i (other_at s.now at)) × (bytes.new ≡ text_after i (other_at s.now at) bytes.old) }
{
    let b = byte(s, at);
    if is_letter(b) {
        words::word(s, at, bytes, i)
    } else {
        wrong(at, slip_of(b))
    }
}

// The i-th element; its text goes to its place among the bytes.
pub fn read(s: &[u8], at: usize, bytes: &mut [u8], i: usize) -> Element
    requires { i < 20 }
    ensures { Onward s.now at result.place × (result ≡ element_of i (element_at s.now at)) × (bytes.new ≡ text_after i (element_at s.now at) bytes.old) }
{
    match byte(s, at) {
        b'"' => texts::inside(s, after(s, at), bytes, i),
        b'-' => numerals::unsigned(s, after(s, at), true),
        b if is_digit(b) => numerals::unsigned(s, at, false),
        _ => other(s, at, bytes, i),
    }
}

// A value that a person writes: integers, reals, texts between double quotes, true, false, yes, no, unknown, and lists of these.
// It goes to cells and bytes as adding a value takes them. A bare word is no text: a misspelt name would become one unnoticed.
#![tactic(auto)]

mod elements;
pub mod lexemes;
mod lists;
mod numerals;
mod ones;
mod steps;
mod texts;
mod words;

ghost use Rattle.std.specs.Prelude.{◌≡◌, ◌≤◌, length, take};
ghost use Rattle.typed_value.specs.Onward.{Placed};
ghost use Rattle.typed_value.specs.Values.{whole_from, typed};
ghost use Rattle.typed_value.specs.Readings.{ended_of, ReadAs};

pub use elements::{Kind, Room};
use lexemes::skip;
pub use ones::{put_text, put_unknown};
pub use steps::Slip;
use steps::Step;

// What was read: a value, which stands in the cells then; or what is wrong, and at which place.
#[derive(Drop)]
pub enum Typed {
    Value,
    Wrong(Slip, usize),
}

// What comes of a step, where nothing but blanks may stand behind it.
fn ended(s: &[u8], t: Step) -> Typed
    ensures { Placed s.now t.place result × (result ≡ ended_of s.now t.slip t.place) }
{
    if !steps::is_fine(t.slip) {
        return Typed::Wrong(t.slip, t.place);
    }
    let p = skip(s, t.place);
    if p < s.len() {
        Typed::Wrong(Slip::Behind, p)
    } else {
        Typed::Value
    }
}

// The value that is all of a text from a place on.
fn whole(s: &[u8], from: usize, tags: &mut [u32], numbers: &mut [i64], bytes: &mut [u8]) -> Typed
    ensures { Placed s.now from result × ReadAs tags.old numbers.old bytes.old tags.new numbers.new bytes.new result (whole_from s.now from) }
{
    let t = lists::value(s, skip(s, from), tags, numbers, bytes);
    ended(s, t)
}

// The value that stands between two places of a text, into cells and bytes that are blank.
pub fn read(
    s: &[u8],
    from: usize,
    to: usize,
    tags: &mut [u32],
    numbers: &mut [i64],
    bytes: &mut [u8],
) -> Typed
    ensures { (to ≤ length s.now → Placed (take to s.now) from result) × ReadAs tags.old numbers.old bytes.old tags.new numbers.new bytes.new result (typed s.now from to) }
{
    if s.len() < to {
        return Typed::Wrong(Slip::Missing, to);
    }
    whole(&s[..to], from, tags, numbers, bytes)
}

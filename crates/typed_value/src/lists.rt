// A value: one element, or a list of them between square brackets.
ghost use Rattle.std.specs.Prelude.{◌≡◌, ◌+◌, ◌≤◌, ◌<◌, set};
ghost use Rattle.typed_value.specs.Onward.{Onward};
ghost use Rattle.typed_value.specs.Elements.{element_at};
ghost use Rattle.typed_value.specs.Values.{next_of, as_one_fn, elements_at, list_at, value_at};
ghost use Rattle.typed_value.specs.Readings.{step_of, behind_of, turn_of, ElementPut, ListRead, ValueRead};

use crate::elements;
use crate::elements::Room;
use crate::lexemes::{after, skip};
use crate::steps::{Slip, Step, is_fine, reached};
use blocks::put_cell;
use parts::byte;

pub fn put_number(numbers: &mut [i64], i: usize, x: i64)
    ensures { numbers.new ≡ set numbers.old i x }
{
    if i < numbers.len() {
        numbers[i] = x;
    }
}

// Reads the i-th element into its cells.
fn put_element(
    s: &[u8],
    at: usize,
    tags: &mut [u32],
    numbers: &mut [i64],
    bytes: &mut [u8],
    i: usize,
) -> Step
    requires { i < 20 }
    ensures { Onward s.now at result.place × (result ≡ step_of (element_at s.now at)) × ElementPut i (element_at s.now at) tags.old numbers.old bytes.old tags.new numbers.new bytes.new }
{
    let e = elements::read(s, at, bytes, i);
    put_cell(tags, 1 + i, e.tag);
    put_number(numbers, 1 + i, e.number);
    reached(e.place, e.slip)
}

// A step in a list, and whether another element follows.
#[derive(Drop)]
struct Turn {
    place: usize,
    slip: Slip,
    more: bool,
}

fn turned(place: usize, slip: Slip, more: bool) -> Turn
    ensures { result ≡ record { place = place; slip = slip; more = more } }
{
    Turn { place, slip, more }
}

// Where the element behind a comma begins.
fn next(s: &[u8], at: usize) -> usize
    ensures { Onward s.now at result × (result ≡ next_of s.now at) }
{
    skip(s, after(s, at))
}

// What stands behind an element.
fn behind(s: &[u8], at: usize) -> Turn
    ensures { Onward s.now at result.place × (result ≡ behind_of s.now at) }
{
    let q = skip(s, at);
    match byte(s, q) {
        b']' => turned(after(s, q), Slip::Fine, false),
        b',' => turned(next(s, q), Slip::Fine, true),
        _ => turned(q, Slip::Separator, false),
    }
}

// Reads the i-th element and what stands behind it.
fn take_turn(
    s: &[u8],
    at: usize,
    tags: &mut [u32],
    numbers: &mut [i64],
    bytes: &mut [u8],
    i: usize,
) -> Turn
    requires { i < 20 }
    ensures { Onward s.now at result.place × (result ≡ turn_of s.now (element_at s.now at)) × ElementPut i (element_at s.now at) tags.old numbers.old bytes.old tags.new numbers.new bytes.new }
{
    let t = put_element(s, at, tags, numbers, bytes, i);
    if is_fine(t.slip) {
        behind(s, t.place)
    } else {
        turned(t.place, t.slip, false)
    }
}

// The shape of a list of n elements.
fn put_shape(tags: &mut [u32], n: usize)
    requires { n ≤ 20 }
    ensures { tags.new ≡ set tags.old 0 (n + 1) }
{
    put_cell(tags, 0, n as u32 + 1);
}

// The elements of a list, from the first on.
fn elements_of(s: &[u8], at: usize, tags: &mut [u32], numbers: &mut [i64], bytes: &mut [u8]) -> Step
    ensures { Onward s.now at result.place × ListRead 0 tags.old numbers.old bytes.old tags.new numbers.new bytes.new result (elements_at 20 s.now at) }
{
    let mut p = at;
    for i in 0..Room::ELEMENTS {
        let t = take_turn(s, p, tags, numbers, bytes, i);
        p = t.place;
        if !t.more {
            put_shape(tags, i + 1);
            return reached(p, t.slip);
        }
    }
    reached(p, Slip::Many)
}

// A list, behind its opening bracket and blanks.
fn list(s: &[u8], at: usize, tags: &mut [u32], numbers: &mut [i64], bytes: &mut [u8]) -> Step
    ensures { Onward s.now at result.place × ValueRead tags.old numbers.old bytes.old tags.new numbers.new bytes.new result (list_at s.now at) }
{
    if byte(s, at) == b']' {
        put_shape(tags, 0);
        return reached(after(s, at), Slip::Fine);
    }
    elements_of(s, at, tags, numbers, bytes)
}

// One element.
fn one(s: &[u8], at: usize, tags: &mut [u32], numbers: &mut [i64], bytes: &mut [u8]) -> Step
    ensures { Onward s.now at result.place × ValueRead tags.old numbers.old bytes.old tags.new numbers.new bytes.new result (as_one_fn (element_at s.now at)) }
{
    let t = put_element(s, at, tags, numbers, bytes, 0);
    put_cell(tags, 0, 0);
    t
}

// The value that stands here.
pub fn value(s: &[u8], at: usize, tags: &mut [u32], numbers: &mut [i64], bytes: &mut [u8]) -> Step
    ensures { Onward s.now at result.place × ValueRead tags.old numbers.old bytes.old tags.new numbers.new bytes.new result (value_at s.now at) }
{
    if byte(s, at) == b'[' {
        return list(s, next(s, at), tags, numbers, bytes);
    }
    one(s, at, tags, numbers, bytes)
}

// The value of a data item in its one form: 17 tags, 17 numbers, and 48 bytes for the text of each of 16 elements.
#![tactic(auto)]

ghost use Rattle.std.specs.Prelude.{◌≡◌, ◌≤◌, ◌<◌, nat_abs};
ghost use Rattle.paper_expressions.specs.Limits.{real_limit};
ghost use Rattle.parts.specs.Texts.{handle as handle_of, moved as movedOf};
ghost use Rattle.items.specs.Encode.{tag_c, SpeltAt, NumberOf, ElementOf, ShapeOf, PutElement, Encodes};

use numbers::{Num, Wide};
use parts::HANDLE;
use state::Values;
use values::{Handle, List, Scalar, Tag, Value};

#[derive(Drop)]
pub struct Form {}

// The form: a shape and the tags of the elements, whether there is a value and their numbers, and the bytes of their texts.
impl Form {
    pub const NUMBERS: usize = Values::CELLS;

    pub const ELEMENTS: usize = Form::NUMBERS + 1;

    pub const CELLS: usize = 2 * Values::CELLS;

    pub const BYTES: usize = List::LIST_LIMIT * Handle::TEXT_LIMIT;
}

// A number of a value as a cell holds it.
fn moved(n: Num) -> u32
    ensures { nat_abs n.z ≤ real_limit → result ≡ movedOf n.z }
{
    let w = numbers::wide_of(n);
    if numbers::real_fits(w) {
        numbers::sum(w, Wide { z: Num::REAL_LIMIT }).z as u32
    } else {
        0
    }
}

// No text stands from here on.
const PLACES: usize = 1_000_000;

// The handle of a text of `n` bytes at a place.
fn handle(place: usize, n: usize) -> u32
    ensures { place < 1000000 → n < 64 → result ≡ handle_of place n }
{
    if place < PLACES && n < HANDLE {
        (place * HANDLE + n) as u32
    } else {
        0
    }
}

fn tag(x: Scalar) -> u32
    ensures { result ≡ tag_c x }
{
    match x {
        Scalar::Unknown => Tag::UNKNOWN,
        Scalar::Truth(_) => Tag::TRUTH,
        Scalar::Int(_) => Tag::INTEGER,
        Scalar::Real(_) => Tag::REAL,
        Scalar::Text(_) => Tag::TEXT,
    }
}

// The number of an element, whose text of `n` bytes has this place.
fn number(x: Scalar, place: usize, n: usize) -> u32
    ensures { NumberOf x place n result }
{
    match x {
        Scalar::Unknown => 0,
        Scalar::Truth(b) => u32::from(b),
        Scalar::Int(z) | Scalar::Real(z) => moved(z),
        Scalar::Text(_) => handle(place, n),
    }
}

// Where the bytes of an element stand: nowhere, if it is no text.
fn spelt(x: Scalar) -> Handle
    ensures { SpeltAt x result }
{
    match x {
        Scalar::Text(h) => h,
        _ => Handle { at: 0, len: 0 },
    }
}

// The i-th element of a value; unknown where there is none.
fn element(v: Value, i: usize) -> Scalar
    ensures { ElementOf v i result }
{
    if v.many && i < values::size(v.list) {
        values::get(v.list, i)
    } else if !v.many && i == 0 {
        v.one
    } else {
        Scalar::Unknown
    }
}

// 0 for one value, or one more than the length of a list.
fn shape(v: Value) -> u32
    ensures { ShapeOf v result }
{
    if v.many {
        values::size(v.list) as u32 + 1
    } else {
        0
    }
}

// Writes the i-th element, whose text has its place among the text bytes.
fn put_element(b: &[u8], x: Scalar, place: usize, cells: &mut [u32], out: &mut [u8], i: usize)
    requires { (i < 16) × (place < 100000) }
    ensures { PutElement b.now x place i cells.old cells.new out.old out.new }
{
    let h = spelt(x);
    blocks::copy_text(
        b,
        h.at,
        h.len,
        out,
        Handle::TEXT_LIMIT * i,
        Handle::TEXT_LIMIT,
    );
    blocks::put_cell(cells, 1 + i, tag(x));
    blocks::put_cell(
        cells,
        Form::ELEMENTS + i,
        number(x, place + Handle::TEXT_LIMIT * i, h.len),
    );
}

// Writes a value, whose texts have their places from `place` on among the text bytes.
pub fn encode(b: &[u8], v: Value, place: usize, cells: &mut [u32], out: &mut [u8])
    requires { place < 100000 }
    ensures { Encodes b.now v place cells.new out.new }
{
    blocks::put_cell(cells, 0, shape(v));
    blocks::put_cell(cells, Form::NUMBERS, 1);
    for i in 0..List::LIST_LIMIT {
        put_element(b, element(v, i), place, cells, out, i);
    }
}

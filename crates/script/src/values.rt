// Values, into tags, numbers and bytes as the call that adds a value is given them: first the shape, then the elements, with texts by their handles.
ghost use Rattle.std.specs.Prelude.{◌≡◌, Bool, [], ◌∷◌, ◌+◌, ◌*◌, ◌<◌, ◌≤◌, eqb, pos, neg_ℤ, set, length};
ghost use Rattle.paper_expressions.specs.Bytes.{bytes as bytes_of};
ghost use Rattle.script.specs.Lexemes.{nowhere, behind_word, digits_at};
ghost use Rattle.script.specs.Places.{behind_truth, up-to, behind_signed, behind_text, behind_element, at_element, behind_elements, behind_value};
ghost use Rattle.script.specs.Values.{Told, truth_number, with_minus, signed_number, text_number, text_in, element_tag, element_number, element_bytes, places_from, ElementPut, Filled, ValuePut};

use crate::lexemes::{NOWHERE, Number, after, behind, digits, text_at};
use blocks::put_cell;
use parts::byte;

// The most that a script has of each.
#[derive(Drop)]
pub struct Given {}

impl Given {
    // elements of a list
    pub const ELEMENTS: usize = 20;

    // cells of a value: its shape and its elements
    pub const CELLS: usize = 21;

    // integers, and the thousandths of reals, without their sign
    pub const INTEGER: u64 = 2_147_483_647;

    pub const REAL: u64 = 4_611_686_018_427_387_903;

    // bytes for the text of one element, and of all
    pub const TEXT: usize = 64;

    pub const BYTES: usize = 1_280;
}

// One element: its cells, and the place behind it.
#[derive(Drop)]
struct Element {
    tag: u32,
    number: i64,
    next: usize,
}

// The tags of elements.
// stays: C interface: as the call that adds a value is lent them
impl Element {
    const UNKNOWN: u32 = 0;

    const TRUTH: u32 = 1;

    const INTEGER: u32 = 2;

    const REAL: u32 = 3;

    const TEXT: u32 = 4;
}

fn truth(s: &[u8], at: usize) -> Element
    ensures { Told result 1 (truth_number s.now at) (behind_truth s.now at) }
{
    let p = behind(s, at, b"0");
    if p != NOWHERE {
        return Element {
            tag: Element::TRUTH,
            number: 0,
            next: p,
        };
    }
    Element {
        tag: Element::TRUTH,
        number: 1,
        next: behind(s, at, b"1"),
    }
}

// A number below zero.
fn negative(n: u64) -> i64
    requires { n ≤ 4611686018427387903 }
    ensures { result ≡ neg_ℤ (pos n) }
{
    0 - n as i64
}

// A number with its sign; no script has one beyond the greatest.
fn whole(minus: bool, n: u64) -> i64
    ensures { result ≡ with_minus minus n }
{
    if Given::REAL < n {
        return 0;
    }
    if minus { negative(n) } else { n as i64 }
}

// A number with its sign, up to its limit.
fn signed(s: &[u8], at: usize, tag: u32, limit: u64) -> Element
    ensures { Told result tag (signed_number s.now at) (behind_signed s.now at limit) }
{
    let p = behind(s, at, b"-");
    if p == NOWHERE {
        return unsigned(s, at, tag, limit, false);
    }
    unsigned(s, p, tag, limit, true)
}

fn unsigned(s: &[u8], at: usize, tag: u32, limit: u64, minus: bool) -> Element
    ensures { Told result tag (with_minus minus (digits_at s.now at).value) (up-to limit (digits_at s.now at)) }
{
    let d = digits(s, at);
    Element {
        tag,
        number: whole(minus, d.value),
        next: within(limit, d),
    }
}

// The place behind a number up to its limit.
fn within(limit: u64, d: Number) -> usize
    ensures { result ≡ up-to limit d }
{
    if limit < d.value { NOWHERE } else { d.next }
}

fn nothing() -> Element
    ensures { Told result 0 (pos 0) nowhere }
{
    Element {
        tag: Element::UNKNOWN,
        number: 0,
        next: NOWHERE,
    }
}

// The text of the i-th element, to its place among the bytes.
fn spelt(s: &[u8], at: usize, bytes: &mut [u8], i: usize) -> Element
    requires { i < 20 }
    ensures { Told result 4 (text_number s.now at i) (behind_text s.now at) × (bytes.new ≡ text_in s.now at i bytes.old) }
{
    let place = Given::TEXT * i;
    let t = text_at(s, at, bytes, place);
    Element {
        tag: Element::TEXT,
        number: handle(place, t.len),
        next: t.next,
    }
}

// The handle of a text of `n` bytes at a place.
fn handle(place: usize, n: usize) -> i64
    requires { (place ≤ 1280) × (n ≤ 63) }
    ensures { result ≡ pos (place * 64 + n) }
{
    (place * Given::TEXT + n) as i64
}

// The i-th element.
fn element_at(s: &[u8], at: usize, bytes: &mut [u8], i: usize) -> Element
    requires { i < 20 }
    ensures { Told result (element_tag s.now at) (element_number s.now at i) (behind_element s.now at) × (bytes.new ≡ element_bytes s.now at i bytes.old) }
{
    let p = after(s, at);
    match byte(s, at) {
        b'u' => Element {
            tag: Element::UNKNOWN,
            number: 0,
            next: p,
        },
        b'b' => truth(s, p),
        b'i' => signed(s, p, Element::INTEGER, Given::INTEGER),
        b'r' => signed(s, p, Element::REAL, Given::REAL),
        b't' => spelt(s, p, bytes, i),
        _ => nothing(),
    }
}

// The number of an element.
fn put_number(numbers: &mut [i64], i: usize, n: i64)
    ensures { numbers.new ≡ set numbers.old i n }
{
    if i < numbers.len() {
        numbers[i] = n;
    }
}

// Reads the i-th element into its cells: the place behind it.
fn put_element(
    s: &[u8],
    at: usize,
    tags: &mut [u32],
    numbers: &mut [i64],
    bytes: &mut [u8],
    i: usize,
) -> usize
    requires { i < 20 }
    ensures { ElementPut s.now at i tags.old numbers.old bytes.old tags.new numbers.new bytes.new × (result ≡ behind_element s.now at) }
{
    let e = element_at(s, at, bytes, i);
    put_cell(tags, 1 + i, e.tag);
    put_number(numbers, 1 + i, e.number);
    e.next
}

// The same, behind a comma if it is not the first.
fn next_element(
    s: &[u8],
    at: usize,
    tags: &mut [u32],
    numbers: &mut [i64],
    bytes: &mut [u8],
    i: usize,
) -> usize
    requires { i < 20 }
    ensures { ElementPut s.now (at_element s.now (eqb i 0) at) i tags.old numbers.old bytes.old tags.new numbers.new bytes.new × (result ≡ behind_element s.now (at_element s.now (eqb i 0) at)) }
{
    if i == 0 {
        return put_element(s, at, tags, numbers, bytes, i);
    }
    put_element(s, behind(s, at, b","), tags, numbers, bytes, i)
}

// The end of a list of n elements, with its shape.
fn closed(s: &[u8], at: usize, tags: &mut [u32], n: usize) -> usize
    requires { n ≤ 20 }
    ensures { (tags.new ≡ set tags.old 0 (n + 1)) × (result ≡ behind_word s.now at (bytes_of ")")) }
{
    put_cell(tags, 0, n as u32 + 1);
    behind(s, at, b")")
}

fn list(s: &[u8], at: usize, tags: &mut [u32], numbers: &mut [i64], bytes: &mut [u8]) -> usize
    ensures { Filled s.now (places_from s.now 20 at) (length (places_from s.now 20 at) + 1) tags.old numbers.old bytes.old tags.new numbers.new bytes.new × (result ≡ behind_elements s.now 20 at) }
{
    let mut p = at;
    for n in 0..Given::ELEMENTS {
        if byte(s, p) == b')' {
            return closed(s, p, tags, n);
        }
        p = next_element(s, p, tags, numbers, bytes, n);
    }
    closed(s, p, tags, Given::ELEMENTS)
}

// A value that is no list.
fn single(s: &[u8], at: usize, tags: &mut [u32], numbers: &mut [i64], bytes: &mut [u8]) -> usize
    ensures { Filled s.now (at ∷ []) 0 tags.old numbers.old bytes.old tags.new numbers.new bytes.new × (result ≡ behind_element s.now at) }
{
    let end = put_element(s, at, tags, numbers, bytes, 0);
    put_cell(tags, 0, 0);
    end
}

// Reads a value into cells and bytes: the place behind it.
pub fn value(s: &[u8], at: usize, tags: &mut [u32], numbers: &mut [i64], bytes: &mut [u8]) -> usize
    ensures { ValuePut s.now at tags.old numbers.old bytes.old tags.new numbers.new bytes.new × (result ≡ behind_value s.now at) }
{
    let p = behind(s, at, b"l(");
    if p == NOWHERE {
        return single(s, at, tags, numbers, bytes);
    }
    list(s, p, tags, numbers, bytes)
}

// The text of an atom or a string without its quotes, its handle, and the operator that a functor name means.
ghost use Rattle.std.specs.Prelude.{◌≡◌, ◌+◌, ◌*◌, ◌-◌, ◌≤◌, ◌<◌, length, get_or};
ghost use Rattle.paper_tokens.specs.Lexical.{inner};
ghost use Rattle.parts.specs.Texts.{cells};
ghost use Rattle.leaves.specs.Places.{entry, Rows, place_from};
ghost use Rattle.leaves.specs.Names.{name_bytes, name_lengths, name_codes, code_from};

use limits::Guideline;
use parts::{Code, HANDLE};
use words::stands;

// How many names of functors section 11 has, and how many bytes of the table each takes.
const FUNCTORS: usize = 13;

const WIDTH: usize = 16;

const BYTES: usize = FUNCTORS * WIDTH;

const NAMES: [u8; BYTES] =
    *b"if              -               isknown         not             count           sum             max             min             nth             is_dormant      is_in_progress  is_discarded    is_completed    ";

const LENGTHS: [usize; FUNCTORS] = [2, 1, 7, 3, 5, 3, 3, 3, 3, 10, 14, 12, 12];
// The numbers of the parts that they are.
const CODES: [u8; FUNCTORS] = [
    Code::IF as u8,
    Code::NEGATE as u8,
    Code::ISKNOWN as u8,
    Code::NOT as u8,
    Code::COUNT as u8,
    Code::SUM as u8,
    Code::MAX as u8,
    Code::MIN as u8,
    Code::NTH as u8,
    Code::IS_DORMANT as u8,
    Code::IS_IN_PROGRESS as u8,
    Code::IS_DISCARDED as u8,
    Code::IS_COMPLETED as u8,
];

#[derive(Drop)]
pub struct Span {
    pub at: usize,
    pub n: usize,
}

impl Span {
    // The handle of the text that stands there, where place and length are within the limits.
    pub fn handle(self) -> u32
        ensures { self.at ≤ 16384 → self.n < 64 → result ≡ self.at * 64 + self.n }
    {
        if self.at <= Guideline::LIMIT && self.n < HANDLE {
            (self.at * HANDLE + self.n) as u32
        } else {
            0
        }
    }
}

// The part of a token between its quotes, where it has any.
pub fn inside(text: &[u8], at: usize, n: usize) -> Span
    requires { at + n ≤ length text.now }
    ensures { (cells text.now result.at result.n ≡ inner (cells text.now at n)) × (result.at + result.n ≤ length text.now) }
{
    if 0 < n && matches!(text[at], b'\'' | b'"') {
        unquoted(at, n)
    } else {
        Span { at, n }
    }
}

// `n` bytes without the first and the last.
fn unquoted(at: usize, n: usize) -> Span
    requires { (0 < n) × (at + n < 18446744073709551616) }
    ensures { (result.at ≡ at + 1) × (result.n ≡ n - 1 - 1) }
{
    Span {
        at: at + 1,
        n: n.saturating_sub(2),
    }
}

// The tables are made once for a name, and handed on.
fn names() -> [u8; BYTES]
    ensures { result ≡ name_bytes }
{
    NAMES
}

fn lengths() -> [usize; FUNCTORS]
    ensures { result ≡ name_lengths }
{
    LENGTHS
}

fn code(i: usize) -> u8
    requires { i < 13 }
    ensures { result ≡ get_or name_codes i 0 }
{
    CODES[i]
}

// The place of the first of `count` names that the `n` bytes of a text at a place are, or the count. A name has `width` bytes of the table, and
// its length.
pub fn place_in(
    text: &[u8],
    at: usize,
    n: usize,
    names: &[u8],
    lengths: &[usize],
    count: usize,
    width: usize,
) -> usize
    requires { (at + n ≤ length text.now) × Rows names.now lengths.now count width }
    ensures { result ≡ place_from (entry names.now lengths.now width) (cells text.now at n) 0 count }
{
    for (i, m) in lengths[..count].iter().enumerate() {
        if stands(text, at, n, names, i * width, *m) {
            return i;
        }
    }
    count
}

// The number of the operator that a functor name means, or that of a functor that section 11 doesn't have.
pub fn functor(text: &[u8], at: usize, n: usize) -> u8
    requires { at + n ≤ length text.now }
    ensures { result ≡ code_from (cells text.now at n) 0 13 }
{
    let names = names();
    let lengths = lengths();
    let i = place_in(text, at, n, &names, &lengths, FUNCTORS, WIDTH);
    if i < FUNCTORS {
        code(i)
    } else {
        Code::NO_SUCH as u8
    }
}

// Words, numbers and hexadecimal texts.
ghost use Rattle.std.specs.Prelude.{◌≡◌, ◌+◌, ◌*◌, ◌<◌, MatchOption, set, length, drop};
ghost use Rattle.script.specs.Lexemes as lexemes;
ghost use Rattle.script.specs.Lexemes.{TextRead};

use parts::byte;

// stays: promise of `line_of` and `ValuePut`, which say what a call and its cells are behind a place that is not there, too
pub const NOWHERE: usize = usize::MAX;

// The greatest number of any script, 2 to the 63rd less one; and one beyond it, for all that are.
const GREATEST: u64 = 9_223_372_036_854_775_807;

const BEYOND: u64 = 9_223_372_036_854_775_808;

// A number, and the place behind it.
#[derive(Drop)]
pub struct Number {
    pub value: u64,
    pub next: usize,
}

// The place behind one byte.
pub fn after(s: &[u8], at: usize) -> usize
    ensures { result ≡ lexemes.after_one s.now at }
{
    if at < s.len() { at + 1 } else { NOWHERE }
}

// The place behind a word that stands here.
pub fn behind(s: &[u8], at: usize, word: &[u8]) -> usize
    ensures { result ≡ lexemes.behind_word s.now at word.now }
{
    let mut p = at;
    for b in word {
        if p >= s.len() || s[p] != *b {
            return NOWHERE;
        }
        p += 1;
    }
    p
}

fn is_digit(b: u8) -> bool
    ensures { result ≡ lexemes.is_digit b }
{
    b >= b'0' && b <= b'9'
}

// A number with one digit more.
fn with_digit(n: u64, b: u8) -> u64
    ensures { result ≡ lexemes.with-digit n b }
{
    if b < b'0' {
        return n;
    }
    if GREATEST / 10 < n {
        return BEYOND;
    }
    n * 10 + u64::from(b - b'0')
}

// The digits that stand here, one at least.
pub fn digits(s: &[u8], at: usize) -> Number
    ensures { result ≡ lexemes.digits_at s.now at }
{
    let mut n = 0u64;
    for p in at..s.len() {
        if !is_digit(s[p]) {
            return ended(n, p, at);
        }
        n = with_digit(n, s[p]);
    }
    ended(n, at.max(s.len()), at)
}

fn ended(n: u64, p: usize, at: usize) -> Number
    ensures { result ≡ lexemes.ended_at n p at }
{
    Number {
        value: n,
        next: if p == at { NOWHERE } else { p },
    }
}

fn none() -> Number
    ensures { result ≡ lexemes.no_number }
{
    Number {
        value: 0,
        next: NOWHERE,
    }
}

// A number up to its limit, and behind it the byte `last`.
pub fn number_at(s: &[u8], at: usize, limit: u64, last: u8) -> Number
    ensures { result ≡ lexemes.number_at s.now at limit last }
{
    let d = digits(s, at);
    if d.value > limit || byte(s, d.next) != last {
        return none();
    }
    Number {
        value: d.value,
        next: after(s, d.next),
    }
}

// What a hexadecimal digit stands for.
fn hexadecimal(b: u8) -> Option<u8>
    ensures is { result ≡ lexemes.hex_value b }
    ensures small { MatchOption result (Unit {0}) (λ d. d < 16) }
{
    match b {
        b'0'..=b'9' => Some(b - b'0'),
        b'A'..=b'F' => Some(b - b'A' + 10),
        b'a'..=b'f' => Some(b - b'a' + 10),
        _ => None,
    }
}

// A byte in two digits.
fn pair(a: u8, b: u8) -> Option<u8>
    ensures { result ≡ lexemes.pair_value a b }
{
    let high = hexadecimal(a)?;
    let low = hexadecimal(b)?;
    Some(high * 16 + low)
}

// The byte `i` of the bytes from `from` on.
fn put(bytes: &mut [u8], from: usize, i: usize, b: u8)
    ensures { bytes.new ≡ set bytes.old (from + i) b }
{
    if from < bytes.len() && i < bytes.len() - from {
        bytes[from + i] = b;
    }
}

// A text that was read: how many of its bytes were kept, and the place behind it.
#[derive(Drop)]
pub struct Text {
    pub len: usize,
    pub next: usize,
}

impl Text {
    // bytes of a text that are kept: more than any that is within the limits has, and as many as a handle can tell
    pub const KEPT: usize = 63;
}

fn longer(n: usize) -> usize
    ensures { result ≡ lexemes.one_longer n }
{
    if n < Text::KEPT { n + 1 } else { n }
}

// The text whose hexadecimal digits stand here, to the bytes from `from` on.
pub fn text_at(s: &[u8], at: usize, bytes: &mut [u8], from: usize) -> Text
    ensures { TextRead s.now at bytes.old from bytes.new result }
{
    let mut n = 0usize;
    let mut p = at;
    while s.len().saturating_sub(p) >= 2 {
        let Some(b) = pair(s[p], s[p + 1]) else {
            return Text { len: n, next: p };
        };
        put(bytes, from, n, b);
        n = longer(n);
        p += 2;
    }
    Text { len: n, next: p }
}

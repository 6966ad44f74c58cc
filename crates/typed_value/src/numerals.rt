// Integers and reals in digits.
ghost use Rattle.std.specs.Prelude.{◌≡◌, ℕ, ◌≤◌, drop};
ghost use Rattle.typed_value.specs.Onward.{Onward};
ghost use Rattle.typed_value.specs.Lexemes.{digitb, past};
ghost use Rattle.typed_value.specs.Numerals.{decimal, kept_number, with_digit, signed_of, thousandths_of};
ghost use Rattle.typed_value.specs.Elements.{real_at, number_at};
ghost use Rattle.typed_value.specs.Readings.{element_of};

use crate::elements::{Element, Kind, found, wrong};
use crate::lexemes::{after, is_digit};
use crate::steps::Slip;
use limits::Literal;
use numbers::Num;
use parts::byte;

// With one digit more, a greater number is beyond every limit.
const GREAT: u64 = 200_000_000;

// One number beyond every limit stands for all that are.
const GREATEST: u64 = 10_000_000_000;

// Digits, and the place behind them.
#[derive(Drop)]
struct Numeral {
    value: u64,
    place: usize,
}

// A number with one digit more.
fn with_digit(n: u64, b: u8) -> u64
    requires { 48 ≤ b }
    ensures { (result ≤ 10000000000) × (result ≡ with_digit n b) }
{
    if GREAT < n {
        return GREATEST;
    }
    n * 10 + u64::from(b - b'0')
}

// The digits that stand here.
fn digits(s: &[u8], at: usize) -> Numeral
    ensures { Onward s.now at result.place × (result.value ≤ 10000000000) × (result.value ≡ kept_number (decimal 0 (drop at s.now))) × (result.place ≡ past digitb s.now at) }
{
    let mut value = 0;
    for place in at..s.len() {
        if !is_digit(s[place]) {
            return Numeral { value, place };
        }
        value = with_digit(value, s[place]);
    }
    Numeral {
        value,
        place: at.max(s.len()),
    }
}

// A number with its sign; one beyond every limit stands for all that are.
fn signed(minus: bool, n: u64) -> i64
    ensures { result ≡ signed_of minus n }
{
    let zero = Num::REAL_LIMIT as u64;
    if zero < n {
        return parts::literal(u32::MAX);
    }
    let x = if minus { zero - n } else { zero + n };
    parts::literal(x as u32)
}

// The thousandths that so many digits behind the point stand for.
fn thousandths(n: u64, count: usize) -> u64
    requires { n ≤ 10000000000 }
    ensures { (result ≤ 1000000000000) × (result ≡ thousandths_of n count) }
{
    match count {
        1 => n * 100,
        2 => n * 10,
        _ => n,
    }
}

// A real, whose point stands here.
fn real(s: &[u8], at: usize, minus: bool, whole: u64) -> Element
    requires { whole ≤ 10000000000 }
    ensures { Onward s.now at result.place × ((n i : ℕ) → whole ≡ kept_number n → result ≡ element_of i (real_at minus s.now at n)) }
{
    let from = after(s, at);
    let d = digits(s, from);
    let p = d.place;
    if p <= from {
        return wrong(from, Slip::Digits);
    }
    let count = p - from;
    if Literal::DECIMALS < count {
        return wrong(at, Slip::Decimals);
    }
    let n = whole * 1000 + thousandths(d.value, count);
    found(Kind::REAL, signed(minus, n), p)
}

// A number without its sign.
pub fn unsigned(s: &[u8], at: usize, minus: bool) -> Element
    ensures { Onward s.now at result.place × ((i : ℕ) → result ≡ element_of i (number_at minus s.now at)) }
{
    let d = digits(s, at);
    let p = d.place;
    if p <= at {
        return wrong(at, Slip::Digits);
    }
    if byte(s, p) == b'.' {
        return real(s, p, minus, d.value);
    }
    found(Kind::INTEGER, signed(minus, d.value), p)
}

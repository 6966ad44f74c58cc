// Whether one token is past a limit: the bytes of a name or a text, the size of a number, its digits behind the point.
ghost use Rattle.std.specs.Prelude.{◌≡◌, ◌+◌, ◌≤◌, ◌<◌, length};
ghost use Rattle.paper_tokens.specs.Literals.{behind_point};
ghost use Rattle.parts.specs.Texts.{cells};
ghost use Rattle.token_tests.specs.LimitTest.{integer_limit_of, float_limit, text_limit_of, limit_of, limit_test};

use leaves::literals::{digits, fixed, unsigned};
use leaves::names::inside;
use limits::Literal;
use numbers::Num;
use terminals::Terminal;
use values::Handle;

// The limit that a token is past.
#[derive(Drop)]
pub enum Limit {
    Within,
    Text,
    Integer,
    Real,
    Decimals,
}

const INTEGER_LIMIT: u32 = Num::INTEGER_LIMIT as u32;

const REAL_LIMIT: u32 = Num::REAL_LIMIT as u32;

// How many bytes stand behind the point.
fn behind(text: &[u8], at: usize, n: usize) -> usize
    requires { at + n ≤ length text.now }
    ensures { result ≡ length (behind_point (cells text.now at n)) }
{
    for (i, b) in text[at..at + n].iter().enumerate() {
        if *b == b'.' {
            return n - i - 1;
        }
    }
    0
}

// Which of its limits a float is past, which `n` bytes write.
fn of_float(text: &[u8], at: usize, n: usize) -> Limit
    requires { at + n ≤ length text.now }
    ensures { result ≡ float_limit (cells text.now at n) }
{
    let s = unsigned(text, at, n);
    if REAL_LIMIT < fixed(text, s.at, s.n) {
        Limit::Real
    } else if Literal::DECIMALS < behind(text, at, n) {
        Limit::Decimals
    } else {
        Limit::Within
    }
}

fn of_integer(text: &[u8], at: usize, n: usize) -> Limit
    requires { at + n ≤ length text.now }
    ensures { result ≡ integer_limit_of (cells text.now at n) }
{
    let s = unsigned(text, at, n);
    if INTEGER_LIMIT < digits(text, s.at, s.n) {
        Limit::Integer
    } else {
        Limit::Within
    }
}

fn of_text(text: &[u8], at: usize, n: usize) -> Limit
    requires { at + n ≤ length text.now }
    ensures { result ≡ text_limit_of (cells text.now at n) }
{
    let s = inside(text, at, n);
    if Handle::TEXT_LIMIT < s.n {
        Limit::Text
    } else {
        Limit::Within
    }
}

// The limit that a token of terminal `k` is past.
pub fn past(text: &[u8], k: u8, at: usize, n: usize) -> Limit
    requires { at + n ≤ length text.now }
    ensures { result ≡ limit_of k (cells text.now at n) }
{
    match k {
        Terminal::INTEGER => of_integer(text, at, n),
        Terminal::FLOAT => of_float(text, at, n),
        0..Terminal::OTHER_ATOM => Limit::Within,
        _ => of_text(text, at, n),
    }
}

// Whether it is past one.
pub fn is_past_limit(text: &[u8], k: u8, at: usize, n: usize) -> bool
    requires { at + n ≤ length text.now }
    ensures { result ≡ limit_test k (cells text.now at n) }
{
    !matches!(past(text, k, at, n), Limit::Within)
}

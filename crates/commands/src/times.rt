// Numbers and amounts of time: 3600, 6 weeks.
ghost use Rattle.std.specs.Prelude.{◌≡◌, ◌≤◌};
ghost use Rattle.commands.specs.Times.{with_digit, number_of, measure_of, is_none, seconds_of, no_amount, amount_of};

use typed_value::lexemes::{is_digit, is_word, skip, word_end};

// No number within the limits is greater; one that is so great stands for all that are beyond.
const GREATEST: u64 = 100_000_000_000;

// The seconds of each unit.
const MINUTE: u64 = 60;

const HOUR: u64 = 3_600;

const DAY: u64 = 86_400;

const WEEK: u64 = 604_800;

// What time is measured in.
#[derive(Clone, Copy, PartialEq, Eq)]
enum Measure {
    Seconds,
    Minutes,
    Hours,
    Days,
    Weeks,
    None,
}

// A number, and the place behind it; that is where it begins if there is none.
#[derive(Drop)]
pub struct Numeral {
    pub value: u64,
    pub next: usize,
}

// So many seconds, whether there are any, and the place where that was found out.
#[derive(Drop)]
pub struct Amount {
    pub there: bool,
    pub seconds: u64,
    pub next: usize,
}

// A number with one digit more.
fn with_digit(n: u64, b: u8) -> u64
    ensures { (result ≤ 100000000000) × (result ≡ with_digit n b) }
{
    if b < b'0' {
        return 0;
    }
    if GREATEST / 100 < n {
        return GREATEST;
    }
    n * 10 + u64::from(b - b'0')
}

// The number that stands here.
pub fn number(s: &[u8], at: usize) -> Numeral
    ensures { (result.value ≤ 100000000000) × (result ≡ number_of s.now at) }
{
    let mut value = 0;
    for next in at..s.len() {
        if !is_digit(s[next]) {
            return Numeral { value, next };
        }
        value = with_digit(value, s[next]);
    }
    Numeral {
        value,
        next: at.max(s.len()),
    }
}

// The unit that stands between two places, one or many; without one it is seconds.
#[tactic(auto, unfolding(crate::specs::Times::measure_of))]
fn unit(s: &[u8], from: usize, to: usize) -> Measure
    ensures { result ≡ measure_of s.now from to }
{
    if to <= from {
        return Measure::Seconds;
    }
    if is_word(s, from, to, b"second") || is_word(s, from, to, b"seconds") {
        Measure::Seconds
    } else if is_word(s, from, to, b"minute") || is_word(s, from, to, b"minutes") {
        Measure::Minutes
    } else if is_word(s, from, to, b"hour") || is_word(s, from, to, b"hours") {
        Measure::Hours
    } else if is_word(s, from, to, b"day") || is_word(s, from, to, b"days") {
        Measure::Days
    } else if is_word(s, from, to, b"week") || is_word(s, from, to, b"weeks") {
        Measure::Weeks
    } else {
        Measure::None
    }
}

fn is_none(m: Measure) -> bool
    ensures { result ≡ is_none m }
{
    m == Measure::None
}

// How many seconds so many of them are.
fn seconds(n: u64, m: Measure) -> u64
    requires { n ≤ 100000000000 }
    ensures { result ≡ seconds_of n m }
{
    match m {
        Measure::Seconds => n,
        Measure::Minutes => n * MINUTE,
        Measure::Hours => n * HOUR,
        Measure::Days => n * DAY,
        Measure::Weeks => n * WEEK,
        Measure::None => 0,
    }
}

// No amount: it stops making sense here.
fn no_amount(at: usize) -> Amount
    ensures { result ≡ no_amount at }
{
    Amount {
        there: false,
        seconds: 0,
        next: at,
    }
}

// The amount of time that stands here, and nothing behind it.
#[tactic(auto, unfolding(crate::specs::Times::amount_of))]
pub fn amount_at(s: &[u8], at: usize) -> Amount
    ensures { result ≡ amount_of s.now at }
{
    let from = skip(s, at);
    let n = number(s, from);
    if n.next <= from {
        return no_amount(from);
    }
    let p = skip(s, n.next);
    let q = word_end(s, p);
    let u = unit(s, p, q);
    if is_none(u) {
        return no_amount(p);
    }
    let end = skip(s, q);
    if end < s.len() {
        return no_amount(end);
    }
    Amount {
        there: true,
        seconds: seconds(n.value, u),
        next: end,
    }
}

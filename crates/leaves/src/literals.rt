// The loads of integer and float tokens: that of zero and the number. What is past the limits is cut off.
ghost use Rattle.std.specs.Prelude.{◌≡◌, ◌+◌, ◌-◌, ◌≤◌, ◌<◌, length};
ghost use Rattle.parts.specs.Texts.{cells};
ghost use Rattle.leaves.specs.Numbers.{most, grown as grownOf, digits as digits_of_fn, three as threeOf, fixed as fixed_of, minus_first, unsigned as unsignedOf, below as belowOf, load_of as load_of, signed};

use numbers::Num;

const BASE: u32 = 10;

// One, its tenth and its hundredth in thousandths.
const UNIT: u32 = Num::UNIT as u32;

const TENTH: u32 = UNIT / BASE;

const HUNDREDTH: u32 = TENTH / BASE;

// Above the limit of integers it is no matter how much.
const MOST: u32 = Num::INTEGER_LIMIT as u32 + 1;

// The load of zero.
const ZERO: u32 = Num::REAL_LIMIT as u32;

// A digit's number; of a byte that is no digit, anything.
fn digit(b: u8) -> u32
    ensures { (result ≡ b - 48) × (result ≤ 207) }
{
    u32::from(b.saturating_sub(b'0'))
}

// One digit more, up to a number that is past the limit of integers.
fn grown(n: u32, b: u8) -> u32
    requires { n ≤ most }
    ensures { (result ≡ grownOf n b) × (result ≤ most) }
{
    MOST.min(n * BASE + digit(b))
}

// The number that `n` digits write.
pub fn digits(text: &[u8], at: usize, n: usize) -> u32
    requires { at + n ≤ length text.now }
    ensures { (result ≡ digits_of_fn 0 (cells text.now at n)) × (result ≤ most) }
{
    let mut v: u32 = 0;
    for b in &text[at..at + n] {
        v = grown(v, *b);
    }
    v
}

// The first three digits behind the point, as thousandths.
fn three(text: &[u8], at: usize, n: usize) -> u32
    requires { at + n ≤ length text.now }
    ensures { (result ≡ threeOf (cells text.now at n)) × (result ≤ 22977) }
{
    match n {
        0 => 0,
        1 => digit(text[at]) * TENTH,
        2 => digit(text[at]) * TENTH + digit(text[at + 1]) * HUNDREDTH,
        _ => digit(text[at]) * TENTH + digit(text[at + 1]) * HUNDREDTH + digit(text[at + 2]),
    }
}

// The thousandths that `n` digits with a point write.
pub fn fixed(text: &[u8], at: usize, n: usize) -> u32
    requires { at + n ≤ length text.now }
    ensures { (result ≡ fixed_of 0 (cells text.now at n)) × (result ≤ 2000023977) }
{
    let mut v: u32 = 0;
    for (i, b) in text[at..at + n].iter().enumerate() {
        if *b == b'.' {
            return v * UNIT + three(text, at + i + 1, n - i - 1);
        }
        v = grown(v, *b);
    }
    v * UNIT
}

// A number without its sign: whether it is a minus, and where the rest stands.
#[derive(Drop)]
pub struct Magnitude {
    pub minus: bool,
    pub at: usize,
    pub n: usize,
}

pub fn unsigned(text: &[u8], at: usize, n: usize) -> Magnitude
    requires { at + n ≤ length text.now }
    ensures { (cells text.now result.at result.n ≡ unsignedOf (cells text.now at n)) × (result.at + result.n ≤ length text.now) × (result.minus ≡ minus_first (cells text.now at n)) }
{
    if 0 < n && text[at] == b'-' {
        Magnitude {
            minus: true,
            at: at + 1,
            n: n - 1,
        }
    } else {
        Magnitude {
            minus: false,
            at,
            n,
        }
    }
}

fn below(v: u32) -> u32
    ensures { result ≡ belowOf v }
{
    ZERO.saturating_sub(v)
}

// The load of a number with its sign.
fn load_of(minus: bool, v: u32) -> u32
    requires { v ≤ 2000023977 }
    ensures { result ≡ load_of minus v }
{
    if minus { below(v) } else { ZERO + v }
}

// The load of an integer token of `n` bytes.
pub fn integer(text: &[u8], at: usize, n: usize) -> u32
    requires { at + n ≤ length text.now }
    ensures { result ≡ signed (digits_of_fn 0) (cells text.now at n) }
{
    let s = unsigned(text, at, n);
    load_of(s.minus, digits(text, s.at, s.n))
}

// The load of a float token of `n` bytes.
pub fn float(text: &[u8], at: usize, n: usize) -> u32
    requires { at + n ≤ length text.now }
    ensures { result ≡ signed (fixed_of 0) (cells text.now at n) }
{
    let s = unsigned(text, at, n);
    load_of(s.minus, fixed(text, s.at, s.n))
}

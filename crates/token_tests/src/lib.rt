// The tests of load on single tokens: the first that names something left out (refusal 10), the first past a limit (refusal 6).
#![tactic(auto)]

pub mod edition;
pub mod sizes;

ghost use Rattle.std.specs.Prelude.{◌≡◌, true, false, ◌+◌, ◌≤◌, ◌<◌, length};
ghost use Rattle.paper_guideline.specs.LeftOut.{LeftOut};
ghost use Rattle.leaves.specs.Source.{source};
ghost use Rattle.token_tests.specs.Reply.{First, OverLimit};
ghost use Rattle.token_tests.specs.LimitTest.{limit_of};
ghost use Rattle.token_tests.specs.Tests.{Breaks, fails_of, fails_at};
ghost use Rattle.parts.specs.Texts.{cells};

use edition::is_left_out;
use leaves::{cell, fits};
use parts::byte;
use sizes::{Limit, is_past_limit, past};

// The tests on one token: whether it names something left out, whether it is past a limit.
#[derive(Clone, Copy)]
enum Test {
    Edition,
    Size,
}

// Whether a token of terminal `k`, with `next` behind it, fails the test.
fn fails(test: Test, text: &[u8], k: u8, next: u8, at: usize, n: usize) -> bool
    requires { at + n ≤ length text.now }
    ensures { result ≡ fails_of test k next (cells text.now at n) }
{
    match test {
        Test::Edition => is_left_out(text, k, next, at, n),
        Test::Size => is_past_limit(text, k, at, n),
    }
}

// Whether the token `i` does.
fn fails_at(
    test: Test,
    text: &[u8],
    kinds: &[u8],
    places: &[usize],
    lengths: &[usize],
    i: usize,
) -> bool
    requires { i < length kinds.now }
    ensures { result ≡ fails_at test (source text.now kinds.now places.now lengths.now) i }
{
    let at = cell(places, i);
    let n = cell(lengths, i);
    fits(text, at, n) && fails(test, text, kinds[i], byte(kinds, i + 1), at, n)
}

// The first token that fails it.
fn first(
    test: Test,
    text: &[u8],
    kinds: &[u8],
    places: &[usize],
    lengths: &[usize],
) -> Option<usize>
    ensures { First (Breaks test) (source text.now kinds.now places.now lengths.now) result }
{
    for i in 0..kinds.len() {
        if fails_at(test, text, kinds, places, lengths, i) {
            return Some(cell(places, i));
        }
    }
    None
}

// Refusal 10: the first token that names something that the first edition leaves out.
pub fn left_out(text: &[u8], kinds: &[u8], places: &[usize], lengths: &[usize]) -> Option<usize>
    ensures { First LeftOut (source text.now kinds.now places.now lengths.now) result }
{
    first(Test::Edition, text, kinds, places, lengths)
}

// Refusal 6 by one token: the first name, text or number that is past its limit.
pub fn past_limit(text: &[u8], kinds: &[u8], places: &[usize], lengths: &[usize]) -> Option<usize>
    ensures { First OverLimit (source text.now kinds.now places.now lengths.now) result }
{
    first(Test::Size, text, kinds, places, lengths)
}

// Which limit the token of terminal `k` and `n` bytes at a place is past, for a person.
pub fn limit_at(text: &[u8], k: u8, at: usize, n: usize) -> Limit
    ensures { (at + n ≤ length text.now → result ≡ limit_of k (cells text.now at n)) × (length text.now < at + n → result ≡ Limit.Within) }
{
    if fits(text, at, n) {
        past(text, k, at, n)
    } else {
        Limit::Within
    }
}

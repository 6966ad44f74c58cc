// Names as guidelines write them: bare, or between single quotes.
ghost use Rattle.std.specs.Prelude.{◌≡◌};
ghost use Rattle.commands.specs.Names.{no_name_fn, quoted_of, name_of};

use parts::byte;
use typed_value::lexemes::{after, close, word_end};

// Where a name begins and ends, without its quotes, and the place behind it; whether there is one.
#[derive(Drop)]
pub struct Name {
    pub there: bool,
    pub from: usize,
    pub to: usize,
    pub next: usize,
}

// No name, at a place.
pub fn none(at: usize) -> Name
    ensures { result ≡ no_name_fn at }
{
    Name {
        there: false,
        from: at,
        to: at,
        next: at,
    }
}

const QUOTE: u8 = b'\'';

// A name behind its opening quote.
#[tactic(auto, unfolding(crate::specs::Names::quoted_of))]
fn quoted(s: &[u8], from: usize) -> Name
    ensures { result ≡ quoted_of s.now from }
{
    let to = close(s, from, QUOTE);
    if s.len() <= to {
        return none(from);
    }
    Name {
        there: true,
        from,
        to,
        next: to + 1,
    }
}

// The name that stands here.
#[tactic(auto, unfolding(crate::specs::Names::name_of))]
pub fn name_at(s: &[u8], at: usize) -> Name
    ensures { result ≡ name_of s.now at }
{
    if byte(s, at) == QUOTE {
        return quoted(s, after(s, at));
    }
    let to = word_end(s, at);
    if to <= at {
        return none(at);
    }
    Name {
        there: true,
        from: at,
        to,
        next: to,
    }
}

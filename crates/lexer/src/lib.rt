// One token: the reader stands at a place, and hands on the token there with its next place.
#![tactic(auto)]

ghost use Rattle.std.specs.Prelude.{◌≡◌, ◌+◌, ◌≤◌, ◌<◌, length, get_or};
ghost use Rattle.matches.specs.Walk.{Settled, Marks};
ghost use Rattle.lexer.specs.Answer.{atom_kind, word_kind, Worded, Named, AtomIs, Tells, Answer};

use matches::{Best, Rule};
use terminals::Terminal;
use words::Known;

// A token. Its kind is its terminal, or one of the two kinds that are skipped.
#[derive(Clone, Copy)]
pub struct Token {
    pub kind: u8,
    pub start: usize,
    pub len: usize,
}

impl Token {
    pub const WHITE_SPACE: u8 = Terminal::COUNT;

    pub const COMMENT: u8 = Terminal::COUNT + 1;
}

// The terminal of an atom that is the r-th of the known strings, or none of them.
fn atom_kind(r: usize) -> u8
    ensures { result ≡ atom_kind r }
{
    match r {
        Known::YES..=Known::NO => Terminal::YES_OR_NO,
        Known::FIRST_TYPE..=Known::LAST_TYPE => Terminal::DATA_TYPE,
        _ => Terminal::OTHER_ATOM,
    }
}

// The terminal of a token without quotes that is the r-th of the known strings, or none of them.
fn word_kind(r: usize) -> u8
    ensures { result ≡ word_kind r }
{
    if r < Known::YES {
        r as u8
    } else {
        atom_kind(r)
    }
}

// The terminal of a reserved symbol, or of a bare atom, which may be a reserved word.
fn word(text: &[u8], at: usize, len: usize) -> u8
    requires { at + len ≤ length text.now }
    ensures { Worded text.now at len result }
{
    word_kind(words::look_up(text, at, len))
}

// The terminal of an atom in quotes.
fn name(text: &[u8], at: usize, len: usize) -> u8
    requires { (2 ≤ len) × (at + len ≤ length text.now) }
    ensures { Named text.now at len result }
{
    atom_kind(words::look_up(text, at + 1, len - 2))
}

// The terminal of an atom.
fn atom(text: &[u8], at: usize, len: usize) -> u8
    requires { (0 < len) × (at + len ≤ length text.now) × (get_or text.now at 0 ≡ 39 → 2 ≤ len) }
    ensures { AtomIs text.now at len result }
{
    if text[at] == b'\'' {
        name(text, at, len)
    } else {
        word(text, at, len)
    }
}

// The kind of the longest match.
fn kind(text: &[u8], at: usize, best: Best) -> u8
    requires { (0 < best.len) × Settled text.now at best }
    ensures { Tells text.now at best.len result }
{
    let len = best.len;
    match best.rule {
        Rule::SYMBOL => word(text, at, len),
        Rule::ATOM => atom(text, at, len),
        Rule::INTEGER => Terminal::INTEGER,
        Rule::FLOAT => Terminal::FLOAT,
        Rule::STRING => Terminal::STRING,
        Rule::WHITE_SPACE => Token::WHITE_SPACE,
        _ => Token::COMMENT,
    }
}

// A place in the text, and one past the last place where a comment can end.
#[derive(Clone, Copy)]
pub struct Cursor {
    pub at: usize,
    pub last: usize,
}

impl Cursor {
    pub fn new(text: &[u8]) -> Cursor
        ensures { (result.at ≡ 0) × Marks text.now result.last }
    {
        Cursor {
            at: 0,
            last: matches::last_end(text),
        }
    }

    // The token at the place, with the place behind it; none where no rule matches there.
    pub fn token(self, text: &[u8]) -> Option<(Token, Cursor)>
        requires { Marks text.now self.last }
        ensures { Answer text.now self result }
    {
        let Cursor { at, last } = self;
        if text.len() <= at {
            return None;
        }
        let best = matches::longest(text, at, last);
        let len = best.len;
        if len == 0 {
            return None;
        }
        let token = Token {
            kind: kind(text, at, best),
            start: at,
            len,
        };
        Some((token, Cursor { at: at + len, last }))
    }
}

// What one token says: the part that an atom, a number or a string is, and what a functor name means.
#![tactic(auto)]

pub mod literals;
pub mod names;

ghost use Rattle.std.specs.Prelude.{◌≡◌, true, false, ◌+◌, ◌≤◌, length, get_or};
ghost use Rattle.leaves.specs.Leaf.{SaysLeaf, SaysHead};

use parts::Code;
use terminals::Terminal;

// The kind and the load of a part; kind 0 is none.
#[derive(Drop)]
pub struct Word {
    pub kind: u8,
    pub load: u32,
}

// A cell of a column; 0 past its end.
pub fn cell(col: &[usize], p: usize) -> usize
    ensures { result ≡ get_or col.now p 0 }
{
    if p < col.len() { col[p] } else { 0 }
}

// A text, and for each of its tokens the terminal, the place and the length.
#[derive(Clone, Copy)]
pub struct Tokens<'a> {
    pub text: &'a [u8],
    pub kinds: &'a [u8],
    pub places: &'a [usize],
    pub lengths: &'a [usize],
}

impl<'a> Tokens<'a> {
    // Where the token `p` stands; 0 past the last.
    pub fn place(self, p: usize) -> usize
        ensures { result ≡ get_or self.entry.places.now p 0 }
    {
        cell(self.places, p)
    }

    // How long it is.
    pub fn length(self, p: usize) -> usize
        ensures { result ≡ get_or self.entry.lengths.now p 0 }
    {
        cell(self.lengths, p)
    }
}

// Whether the `n` bytes from `at` on are in a text.
pub fn fits(text: &[u8], at: usize, n: usize) -> bool
    ensures { (result ≡ true → at + n ≤ length text.now) × (at + n ≤ length text.now → result ≡ true) }
{
    at <= text.len() && n <= text.len() - at
}

// The part that a token of terminal `k` is by itself.
pub fn leaf(text: &[u8], k: u8, at: usize, n: usize) -> Word
    requires { at + n ≤ length text.now }
    ensures { SaysLeaf text.now k at n result }
{
    match k {
        Terminal::INTEGER => Word {
            kind: Code::INTEGER as u8,
            load: literals::integer(text, at, n),
        },
        Terminal::FLOAT => Word {
            kind: Code::FLOAT as u8,
            load: literals::float(text, at, n),
        },
        Terminal::STRING => Word {
            kind: Code::STRING as u8,
            load: names::inside(text, at, n).handle(),
        },
        Terminal::OTHER_ATOM..=Terminal::DATA_TYPE => Word {
            kind: Code::ATOM as u8,
            load: names::inside(text, at, n).handle(),
        },
        _ => Word { kind: 0, load: 0 },
    }
}

// The part of a call whose functor name is an atom: an operator of section 11, or none of its with the name as its load.
pub fn head(text: &[u8], at: usize, n: usize) -> Word
    requires { at + n ≤ length text.now }
    ensures { SaysHead text.now at n result }
{
    let s = names::inside(text, at, n);
    let k = names::functor(text, s.at, s.n);
    let x = if k == Code::NO_SUCH as u8 {
        s.handle()
    } else {
        0
    };
    Word { kind: k, load: x }
}

// What single tokens of a line say: the name that an atom is, yes or no, and the name of a type.
#![tactic(auto)]

mod row;

ghost use Rattle.std.specs.Prelude.{◌≡◌, ◌+◌, ◌≤◌, length, get_or};
ghost use Rattle.guideline_rows.specs.Flags.{Spells, declared_of, Answers, Declares};

use leaves::Tokens;
use leaves::names::Span;
pub use row::{Flag, Kind, Row};

// Where the name of the token `j` stands in the text.
pub fn spelt(tokens: Tokens, j: usize) -> Span
    ensures { Spells tokens.entry.text.now tokens.entry.places.now tokens.entry.lengths.now j result }
{
    let at = tokens.place(j);
    let n = tokens.length(j);
    if leaves::fits(tokens.text, at, n) {
        leaves::names::inside(tokens.text, at, n)
    } else {
        Span { at: 0, n: 0 }
    }
}

// Yes or no: they differ in length.
pub fn answer(tokens: Tokens, j: usize) -> u8
    ensures { Answers tokens.entry.text.now tokens.entry.places.now tokens.entry.lengths.now j result }
{
    if spelt(tokens, j).n == 3 {
        Flag::YES
    } else {
        Flag::NO
    }
}

// The number of a type, by the length of its name and a byte in which names of one length differ.
fn type_of(text: &[u8], at: usize, n: usize) -> u8
    requires { at + n ≤ length text.now }
    ensures { result ≡ declared_of n (λ i. get_or text.now (at + i) 0) }
{
    match n {
        4 => match text[at + 2] {
            b'x' => Flag::TEXT,
            b't' => Flag::DATE,
            b'm' => Flag::TIME,
            _ => Flag::REAL,
        },
        7 if text[at + 2] == b't' => Flag::INTEGER,
        7 => Flag::BOOLEAN,
        8 => Flag::DATETIME,
        10 if text[at + 6] == b't' => Flag::SETOF_TEXT,
        10 => Flag::SETOF_REAL,
        _ => Flag::SETOF_INTEGER,
    }
}

// The number of the declared type that the token `j` names.
pub fn declared(tokens: Tokens, j: usize) -> u8
    ensures { Declares tokens.entry.text.now tokens.entry.places.now tokens.entry.lengths.now j result }
{
    let s = spelt(tokens, j);
    type_of(tokens.text, s.at, s.n)
}

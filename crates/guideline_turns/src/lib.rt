// The tokens of a guideline, taken in turns. What a turn passes, its first token tells; and it gives a row or none.
#![tactic(auto)]

mod lines;

ghost use Rattle.std.specs.Prelude.{◌≡◌, ◌≤◌};
ghost use Rattle.paper_guideline.specs.Limits.{token_limit};
ghost use Rattle.leaves.specs.Source.{source_of};
ghost use Rattle.guideline_rows.specs.Flat.{front, behind};
ghost use Rattle.guideline_turns.specs.Made.{mode_of, onto, place_in, first_in, end_in, start_in, PlainSteps, Steps};

use expression_steps::kind_at;
use leaves::Tokens;
use limits::TokenList;
use terminals::Terminal;

// Where a turn begins: before a row, or in a postcondition before or behind an assignment.
#[derive(Clone, Copy)]
pub enum Mode {
    Row,
    Before,
    Behind,
}

// A name: the token that it is, and its place.
#[derive(Clone, Copy)]
pub struct Label {
    pub token: usize,
    pub place: usize,
}

// An expression: its first part, the one behind its last, where it starts, and whether it is too deep or has too long a list.
#[derive(Clone, Copy)]
pub struct Extent {
    pub first: usize,
    pub end: usize,
    pub start: usize,
    pub large: bool,
}

// What a row says.
#[derive(Clone, Copy)]
pub struct Entry {
    // the terminal of the row's word ("=" for an assignment), and the place of an attribute's
    pub kind: u8,
    pub word: usize,
    pub name: Option<Label>,
    pub expression: Option<Extent>,
    // yes (1) or no (2), or the number of a declared type
    pub flag: u8,
}

impl Entry {
    // Where its name stands; 0 if it has none.
    pub fn place(self) -> usize
        ensures { result ≡ place_in self.name }
    {
        self.name.map_or(0, |name| name.place)
    }

    // Of its expression the first part, the one behind the last, and where it starts; 0 if it has none.
    pub fn first(self) -> usize
        ensures { result ≡ first_in self.expression }
    {
        self.expression.map_or(0, |e| e.first)
    }

    pub fn end(self) -> usize
        ensures { result ≡ end_in self.expression }
    {
        self.expression.map_or(0, |e| e.end)
    }

    pub fn start(self) -> usize
        ensures { result ≡ start_in self.expression }
    {
        self.expression.map_or(0, |e| e.start)
    }
}

// What a turn passed, and the row that it gives, if any.
#[derive(Clone, Copy)]
pub struct Passed {
    // the token behind it
    pub next: usize,
    // where the next turn begins
    pub mode: Mode,
    pub row: Option<Entry>,
}

// On to `next`, with no row.
fn on(next: usize, mode: Mode) -> Passed
    ensures { result ≡ onto next mode }
{
    Passed {
        next,
        mode,
        row: None,
    }
}

// In a postcondition before an assignment: a parenthesis or the assignment.
fn before(tokens: Tokens, cells: &mut [u32], p: usize, u: usize) -> Option<Passed>
    requires { (p ≤ token_limit) × (u ≤ p) }
    ensures { Steps front (source_of tokens.entry) cells.old cells.new p u result }
{
    if kind_at(tokens.kinds, p) == Terminal::LEFT_PARENTHESIS {
        Some(on(p + 1, Mode::Before))
    } else {
        lines::assignment(tokens, cells, p, u)
    }
}

// Behind an assignment: a parenthesis closes, `and` goes on, or the postcondition ends.
fn after(tokens: Tokens, p: usize) -> Passed
    requires { p ≤ token_limit }
    ensures { PlainSteps behind (source_of tokens.entry) p result }
{
    let mode = match kind_at(tokens.kinds, p) {
        Terminal::RIGHT_PARENTHESIS => Mode::Behind,
        Terminal::AND => Mode::Before,
        _ => Mode::Row,
    };
    on(p + 1, mode)
}

// One turn, from the token `p` on. The parts of an expression are written from the part `u` on, as far as there is room.
pub fn step(tokens: Tokens, cells: &mut [u32], p: usize, mode: Mode, u: usize) -> Option<Passed>
    requires { u ≤ p }
    ensures { Steps (mode_of mode) (source_of tokens.entry) cells.old cells.new p u result }
{
    if TokenList::LIMIT < p {
        return None;
    }
    match mode {
        Mode::Row => lines::line(tokens, cells, p, u),
        Mode::Before => before(tokens, cells, p, u),
        Mode::Behind => Some(after(tokens, p)),
    }
}

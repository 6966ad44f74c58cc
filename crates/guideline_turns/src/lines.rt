// What a turn passes: a line that begins with a word, or an assignment.
ghost use Rattle.std.specs.Prelude.{◌≡◌, ◌≤◌, get_or};
ghost use Rattle.paper_guideline.specs.Limits.{token_limit};
ghost use Rattle.leaves.specs.Source.{source_of};
ghost use Rattle.guideline_rows.specs.Flat.{outside, task_line, data_lines, expression_line, name_line, answer_line, constraint_line, postcondition_word, assignment_there, shape_outside};
ghost use Rattle.guideline_turns.specs.Made.{letter, IsLarge, Plain, Passes, Steps};

use super::{Entry, Extent, Label, Mode, Passed, on};
use expression_steps::kind_at;
use leaves::Tokens;
use limits::Expression;
use terminals::Terminal;
use values::List;

// What a line is that begins with the terminal `k`: t a task's first line, d a data item's, e an attribute with an expression, n with a name,
// y with yes or no, c a schedule constraint, p the word of a postcondition, and . an end.
fn shape(k: u8) -> u8
    ensures { result ≡ letter (shape_outside k) }
{
    match k {
        Terminal::PLAN | Terminal::ACTION | Terminal::ENQUIRY => b't',
        Terminal::DATA => b'd',
        Terminal::CAPTION | Terminal::DESCRIPTION | Terminal::PRECONDITION => b'e',
        Terminal::WAIT_CONDITION | Terminal::TERMINATE => b'e',
        Terminal::TRIGGER | Terminal::COMPONENT | Terminal::SOURCE => b'n',
        Terminal::TERMINAL | Terminal::MANDATORY => b'y',
        Terminal::SCHEDULE_CONSTRAINT => b'c',
        Terminal::POSTCONDITION => b'p',
        _ => b'.',
    }
}

// Whether an expression is too deep, or has too long a list.
fn large(depth: usize, longest: usize) -> bool
    ensures { IsLarge depth longest result }
{
    Expression::DEPTH < depth || List::LIST_LIMIT < longest
}

// The token `j`, which is a name, and its place.
fn label(tokens: Tokens, j: usize) -> Label
    ensures { result ≡ record { token = j; place = get_or tokens.entry.places.now j 0 } }
{
    Label {
        token: j,
        place: tokens.place(j),
    }
}

// `plan :: name ;`
fn task(tokens: Tokens, p: usize) -> Passed
    requires { p ≤ token_limit }
    ensures { Plain task_line (source_of tokens.entry) p result }
{
    Passed {
        next: p + 4,
        mode: Mode::Row,
        row: Some(Entry {
            kind: kind_at(tokens.kinds, p),
            word: 0,
            name: Some(label(tokens, p + 2)),
            expression: None,
            flag: 0,
        }),
    }
}

// `data :: name ; type :: type ;`
fn data_item(tokens: Tokens, p: usize) -> Passed
    requires { p ≤ token_limit }
    ensures { Plain data_lines (source_of tokens.entry) p result }
{
    Passed {
        next: p + 8,
        mode: Mode::Row,
        row: Some(Entry {
            kind: Terminal::DATA,
            word: 0,
            name: Some(label(tokens, p + 2)),
            expression: None,
            flag: guideline_rows::declared(tokens, p + 6),
        }),
    }
}

// `caption :: expression ;`
fn expression(tokens: Tokens, cells: &mut [u32], p: usize, u: usize) -> Option<Passed>
    requires { (p ≤ token_limit) × (u ≤ p) }
    ensures { Passes expression_line (source_of tokens.entry) cells.old cells.new p u result }
{
    let e = expression_reader::read(
        tokens.text,
        tokens.kinds,
        tokens.places,
        tokens.lengths,
        p + 2,
        false,
        cells,
        u,
    );
    if !e.ok {
        return None;
    }
    let n = e.next;
    if tokens.kinds.len() <= n {
        return None;
    }
    Some(Passed {
        next: n + 1,
        mode: Mode::Row,
        row: Some(Entry {
            kind: kind_at(tokens.kinds, p),
            word: tokens.place(p),
            name: None,
            expression: Some(Extent {
                first: u,
                end: e.used,
                start: tokens.place(p + 2),
                large: large(e.depth, e.longest),
            }),
            flag: 0,
        }),
    })
}

// `component :: name ;`
fn name(tokens: Tokens, p: usize) -> Passed
    requires { p ≤ token_limit }
    ensures { Plain name_line (source_of tokens.entry) p result }
{
    Passed {
        next: p + 4,
        mode: Mode::Row,
        row: Some(Entry {
            kind: kind_at(tokens.kinds, p),
            word: tokens.place(p),
            name: Some(label(tokens, p + 2)),
            expression: None,
            flag: 0,
        }),
    }
}

// `mandatory :: yes ;`
fn answer(tokens: Tokens, p: usize) -> Passed
    requires { p ≤ token_limit }
    ensures { Plain answer_line (source_of tokens.entry) p result }
{
    Passed {
        next: p + 4,
        mode: Mode::Row,
        row: Some(Entry {
            kind: kind_at(tokens.kinds, p),
            word: tokens.place(p),
            name: None,
            expression: None,
            flag: guideline_rows::answer(tokens, p + 2),
        }),
    }
}

// `schedule_constraint :: completed ( name ) ;`
fn constraint(tokens: Tokens, p: usize) -> Passed
    requires { p ≤ token_limit }
    ensures { Plain constraint_line (source_of tokens.entry) p result }
{
    Passed {
        next: p + 7,
        mode: Mode::Row,
        row: Some(Entry {
            kind: Terminal::SCHEDULE_CONSTRAINT,
            word: tokens.place(p),
            name: Some(label(tokens, p + 4)),
            expression: None,
            flag: 0,
        }),
    }
}

// `postcondition ::`
fn postcondition(tokens: Tokens, p: usize) -> Passed
    requires { p ≤ token_limit }
    ensures { Plain postcondition_word (source_of tokens.entry) p result }
{
    Passed {
        next: p + 2,
        mode: Mode::Before,
        row: Some(Entry {
            kind: Terminal::POSTCONDITION,
            word: tokens.place(p),
            name: None,
            expression: None,
            flag: 0,
        }),
    }
}

// `name = expression`
pub fn assignment(tokens: Tokens, cells: &mut [u32], p: usize, u: usize) -> Option<Passed>
    requires { (p ≤ token_limit) × (u ≤ p) }
    ensures { Passes assignment_there (source_of tokens.entry) cells.old cells.new p u result }
{
    let e = expression_reader::read(
        tokens.text,
        tokens.kinds,
        tokens.places,
        tokens.lengths,
        p + 2,
        true,
        cells,
        u,
    );
    if !e.ok {
        return None;
    }
    Some(Passed {
        next: e.next,
        mode: Mode::Behind,
        row: Some(Entry {
            kind: Terminal::EQUALS,
            word: 0,
            name: Some(label(tokens, p)),
            expression: Some(Extent {
                first: u,
                end: e.used,
                start: tokens.place(p + 2),
                large: large(e.depth, e.longest),
            }),
            flag: 0,
        }),
    })
}

// A line, by its first token.
pub fn line(tokens: Tokens, cells: &mut [u32], p: usize, u: usize) -> Option<Passed>
    requires { (p ≤ token_limit) × (u ≤ p) }
    ensures { Steps outside (source_of tokens.entry) cells.old cells.new p u result }
{
    match shape(kind_at(tokens.kinds, p)) {
        b't' => Some(task(tokens, p)),
        b'd' => Some(data_item(tokens, p)),
        b'e' => expression(tokens, cells, p, u),
        b'n' => Some(name(tokens, p)),
        b'y' => Some(answer(tokens, p)),
        b'c' => Some(constraint(tokens, p)),
        b'p' => Some(postcondition(tokens, p)),
        _ => Some(on(p + 3, Mode::Row)),
    }
}

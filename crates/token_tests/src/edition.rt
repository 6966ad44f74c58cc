// Whether one token names something that the first edition leaves out: a word, a functor or an exponent.
ghost use Rattle.std.specs.Prelude.{◌≡◌, ◌+◌, ◌≤◌, ◌<◌, length};
ghost use Rattle.parts.specs.Texts.{cells};
ghost use Rattle.token_tests.specs.Exponent.{begins_exponent, has_exponent};
ghost use Rattle.paper_grammar.proofs.Laws.Ll.{is_in};
ghost use Rattle.paper_guideline.specs.LeftOut.{left_out_words};
ghost use Rattle.token_tests.specs.LeftOutTest.{name_bytes, name_lengths, named_from, left_out_test};

use leaves::names::{inside, place_in};
use terminals::Terminal;

// How many functors are left out, and how many bytes of the table each takes.
const FUNCTORS: usize = 16;

const WIDTH: usize = 16;

const BYTES: usize = FUNCTORS * WIDTH;

const NAMES: [u8; BYTES] =
    *b"in_progress_timediscarded_time  completed_time  union           diff            intersect       abs             exp             ln              sin             cos             tan             asin            acos            atan            random          ";

const LENGTHS: [usize; FUNCTORS] = [16, 14, 14, 5, 4, 9, 3, 3, 2, 3, 3, 3, 4, 4, 4, 6];

// Whether a terminal is a reserved word or symbol that is left out.
#[tactic(auto, unfolding(paper_guideline::specs::LeftOut::left_out_words))]
pub fn is_word(k: u8) -> bool
    ensures { result ≡ is_in k left_out_words }
{
    matches!(
        k,
        Terminal::DIRECTIVES
            | Terminal::TASK
            | Terminal::DECISION
            | Terminal::PROCEDURE
            | Terminal::CONTEXT
            | Terminal::GOAL
            | Terminal::ABORT
            | Terminal::PARAMETERS
            | Terminal::AUTONOMOUS
            | Terminal::OPTIONAL
            | Terminal::LTWH
            | Terminal::CYCLE_UNTIL
            | Terminal::NUMBER_OF_CYCLES
            | Terminal::CYCLE_REPEAT
            | Terminal::PARAM_VALUE
            | Terminal::RANGE
            | Terminal::DEFAULT_VALUE
            | Terminal::TRUE_VALUE
            | Terminal::FALSE_VALUE
            | Terminal::MANDATORY_VALIDATION
            | Terminal::DERIVATION
            | Terminal::UNIT
            | Terminal::RESULT_OF
            | Terminal::NETSUPPORT
            | Terminal::NETSUPPORT_UPPER
            | Terminal::HASH
            | Terminal::PLUS_PLUS
            | Terminal::COLON
    )
}

// Both tables are made once for a name, and handed on.
fn names() -> [u8; BYTES]
    ensures { result ≡ name_bytes }
{
    NAMES
}

fn lengths() -> [usize; FUNCTORS]
    ensures { result ≡ name_lengths }
{
    LENGTHS
}

// Whether a text is the name of a functor that is left out.
fn functor(text: &[u8], at: usize, n: usize) -> bool
    requires { at + n ≤ length text.now }
    ensures { result ≡ named_from (cells text.now at n) 0 16 }
{
    let names = names();
    let lengths = lengths();
    place_in(text, at, n, &names, &lengths, FUNCTORS, WIDTH) < FUNCTORS
}

// Whether a letter may begin an exponent.
fn power(b: u8) -> bool
    ensures { result ≡ begins_exponent b }
{
    matches!(b, b'D'..=b'E' | b'd'..=b'e')
}

// Whether a float has an exponent: one of the letters that begin it.
fn exponent(text: &[u8], at: usize, n: usize) -> bool
    requires { at + n ≤ length text.now }
    ensures { result ≡ has_exponent (cells text.now at n) }
{
    text[at..at + n].iter().any(|b| power(*b))
}

// Whether a token of terminal `k`, with `next` behind it, names something left out.
pub fn is_left_out(text: &[u8], k: u8, next: u8, at: usize, n: usize) -> bool
    requires { at + n ≤ length text.now }
    ensures { result ≡ left_out_test k next (cells text.now at n) }
{
    match k {
        Terminal::FLOAT => exponent(text, at, n),
        0..Terminal::OTHER_ATOM => is_word(k),
        Terminal::OTHER_ATOM..=Terminal::DATA_TYPE if next == Terminal::LEFT_PARENTHESIS => {
            let s = inside(text, at, n);
            functor(text, s.at, s.n)
        }
        _ => false,
    }
}

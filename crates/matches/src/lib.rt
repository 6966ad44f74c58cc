// The longest match at a place: seven rules go over the bytes in step. Rule 0 is the reserved symbols, rules 1 to 6 the rules of
// section 2 from the atom on, in their order. A reserved word of letters is an atom here: which atom it is comes after the walk.
#![tactic(auto)]

ghost use Rattle.std.specs.Prelude.{◌≡◌, true, ℕ, ◌+◌, ◌≤◌, ◌<◌, length};
ghost use Rattle.matches.specs.Kinds.{fine_of};
ghost use Rattle.matches.specs.Machine.{accepts as acceptsOf, next_of, acc_of, Takes};
ghost use Rattle.matches.specs.Walk.{better_of, begin_of, Settled, Closes, Marks};

mod numbers;
pub mod table;

use limits::Guideline;
pub use numbers::Rule;
use numbers::{ByteKind, State};

// The bytes of what begins a comment.
const FENCE: usize = 3;

const FIRST_HIGH: u8 = Guideline::LAST_BYTE + 1;

const LAST_HIGH: u8 = 255;

// The kind of a byte: the thirteen kinds of the definitions, with the bytes of symbols told apart from the others.
#[tactic(auto, unfolding(crate::specs::Kinds::fine_of, paper_tokens::specs::Kinds::kind_of))]
pub fn kind(b: u8) -> usize
    ensures { result ≡ fine_of b }
{
    match b {
        b'd'..=b'e' | b'D'..=b'E' => ByteKind::POWER,
        b'a'..=b'c' | b'f'..=b'z' | b'A'..=b'C' | b'F'..=b'Z' | b'_' => ByteKind::LETTER,
        b'0'..=b'9' => ByteKind::DIGIT,
        b'-' => ByteKind::MINUS,
        b'.' => ByteKind::POINT,
        b'\'' => ByteKind::QUOTE,
        b'\\' => ByteKind::BACKSLASH,
        b'\t'..=b'\n' | b'\r' | b' ' => ByteKind::BLANK,
        b'/' => ByteKind::SLASH,
        b'*' => ByteKind::STAR,
        FIRST_HIGH..=LAST_HIGH => ByteKind::HIGH,
        b'"' => ByteKind::DOUBLE_QUOTE,
        b':' => ByteKind::COLON,
        b'+' => ByteKind::PLUS,
        b'<' => ByteKind::LESS,
        b'=' => ByteKind::EQUAL,
        b'>' => ByteKind::GREATER,
        b'!' => ByteKind::BANG,
        b'('..=b')' | b'#' | b',' | b';' | b'[' | b']' => ByteKind::MARK,
        _ => ByteKind::OTHER,
    }
}

// The longest match so far: its length, 0 for none, and its rule.
#[derive(Drop)]
pub struct Best {
    pub len: usize,
    pub rule: usize,
}

// A longer match wins; on a tie the one that is there.
fn better(accepts: &[u8; State::COUNT], best: Best, q: usize, r: usize, n: usize) -> Best
    requires { (accepts.now ≡ acceptsOf) × (q < 35) }
    ensures { result ≡ better_of best q r n }
{
    if table::accepting(accepts, q) && best.len < n {
        Best { len: n, rule: r }
    } else {
        best
    }
}

// Where the rules start. Where no comment can end any more, the rule of comments is dead from the start.
fn begin(shut: bool) -> [usize; Rule::COUNT]
    ensures { result ≡ begin_of shut }
{
    let mut states = [
        State::SYMBOL,
        State::ATOM,
        State::INTEGER,
        State::FLOAT,
        State::STRING,
        State::WHITE_SPACE,
        State::COMMENT,
    ];
    if shut {
        states[Rule::COMMENT] = State::DEAD;
    }
    states
}

// One past the last place where a comment can end; 0 where there is none. Found once, it settles every comment that is opened later:
// without it each of many openings would be walked to the end of the text.
pub fn last_end(text: &[u8]) -> usize
    ensures { Marks text.now result }
{
    for p in (0..text.len()).rev() {
        if text[p..].starts_with(b"**/") {
            return p + 1;
        }
    }
    0
}

// No comment that starts at a place can end.
fn hopeless(at: usize, last: usize) -> bool
    ensures { result ≡ true → last ≤ at + 3 }
{
    last.saturating_sub(at) <= FENCE
}

// All rules go from byte to byte in step, up to the first byte that none of them can take.
fn walk(text: &[u8], at: usize, shut: bool) -> Best
    requires { (at ≤ length text.now) × (shut ≡ true → (m : ℕ) → ¬ Takes text.now at 6 m) }
    ensures { Settled text.now at result }
{
    let delta = table::delta();
    let accepts = table::accepts();
    let mut states = begin(shut);
    let mut best = Best { len: 0, rule: 0 };
    'walk: for (i, b) in text[at..].iter().enumerate() {
        let k = kind(*b);
        let mut alive = 0usize;
        'rules: for (r, q) in states.iter_mut().enumerate() {
            let next = table::next(&delta, *q, k);
            *q = next;
            best = better(&accepts, best, next, r, i + 1);
            alive += next;
            // behind the last rule: if all are dead, the longest match is settled
            if r == Rule::COUNT - 1 && alive == State::DEAD {
                break 'walk;
            }
        }
    }
    best
}

// The longest match at a place, the first rule in order where several have it; length 0 where none matches.
pub fn longest(text: &[u8], at: usize, last: usize) -> Best
    requires { (at ≤ length text.now) × Marks text.now last }
    ensures { Settled text.now at result }
{
    walk(text, at, hopeless(at, last))
}

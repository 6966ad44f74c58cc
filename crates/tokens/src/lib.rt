// The whole text: its tokens go into three lent columns, or it is refused with 1, 2 or 6.
#![tactic(auto)]

ghost use Rattle.std.specs.Prelude.{◌≡◌, ℕ, ◌+◌, ◌≤◌, ◌<◌, length, replicate};
ghost use Rattle.tokens.specs.Reply.{Reads, RoomIs};
ghost use Rattle.tokens.specs.Loop.{FirstHigh, Early, stored, counted, bracket_of, Filled, Late};

use lexer::{Cursor, Token};
use limits::{Brackets, Guideline, Refusal, TokenList};
use terminals::Terminal;

// How many tokens there are, in the columns; or number and place of the refusal; or that a column has fewer cells than a text may have tokens.
#[derive(Drop)]
pub enum Read {
    Tokens(usize),
    Refused(u8, usize),
    Short,
}

// Number and place of a refusal.
#[derive(Clone, Copy)]
pub struct Broken {
    pub number: u8,
    pub place: usize,
}

// Refusal 1: the first byte over 127, or the length of a text that is too long.
fn early(text: &[u8]) -> Result<(), Broken>
    ensures { Early text.now result }
{
    let place = high(text);
    if place < text.len() || Guideline::LIMIT < text.len() {
        Err(Broken {
            number: Refusal::TEXT,
            place,
        })
    } else {
        Ok(())
    }
}

// The first byte over 127, or the text's length.
fn high(text: &[u8]) -> usize
    ensures { FirstHigh text.now result }
{
    text.iter()
        .position(|b| Guideline::LAST_BYTE < *b)
        .unwrap_or(text.len())
}

// How many brackets are open, and the place of the first one too many, or the text's length.
#[derive(Drop)]
pub struct Open {
    pub count: usize,
    pub bad: usize,
}

// One token more.
fn bracket(b: Open, kind: u8, place: usize, end: usize) -> Open
    requires { b.count < 4294967296 }
    ensures { result ≡ bracket_of b kind place end }
{
    let Open { count, bad } = b;
    match kind {
        Terminal::LEFT_PARENTHESIS | Terminal::LEFT_BRACKET => {
            if Brackets::LIMIT <= count {
                let bad = if bad == end { place } else { bad };
                Open { count, bad }
            } else {
                Open {
                    count: count + 1,
                    bad,
                }
            }
        }
        Terminal::RIGHT_PARENTHESIS | Terminal::RIGHT_BRACKET => Open {
            count: count.saturating_sub(1),
            bad,
        },
        _ => b,
    }
}

// The cells of one token more; how many tokens there are then. White space and comments are none.
fn put(
    kinds: &mut [u8],
    places: &mut [usize],
    lengths: &mut [usize],
    n: usize,
    token: Token,
) -> usize
    requires { (4096 ≤ length kinds.old) × (4096 ≤ length places.old) × (4096 ≤ length lengths.old) × (n < 4294967296) }
    ensures value { result ≡ counted n token.kind }
    ensures kinds_after { kinds.new ≡ stored kinds.old n token.kind token.kind }
    ensures places_after { places.new ≡ stored places.old n token.kind token.start }
    ensures lengths_after { lengths.new ≡ stored lengths.old n token.kind token.len }
{
    if Terminal::STRING < token.kind {
        return n;
    }
    if n < TokenList::LIMIT {
        kinds[n] = token.kind;
        places[n] = token.start;
        lengths[n] = token.len;
    }
    n + 1
}

// Where the reader stopped, how many tokens it has, and how the brackets stand.
#[derive(Clone, Copy)]
pub struct Stop {
    pub at: usize,
    pub n: usize,
    pub bad: usize,
}

// The tokens, one after the other, up to the end or to a place where no rule matches.
fn fill(text: &[u8], kinds: &mut [u8], places: &mut [usize], lengths: &mut [usize]) -> Stop
    requires in_bounds { (4096 ≤ length kinds.old) × (4096 ≤ length places.old) × (4096 ≤ length lengths.old) × (length text.now ≤ 16384) }
    requires kinds_value { (kinds.old ≡ replicate (length kinds.old) 0) × (places.old ≡ replicate (length places.old) 0) × (lengths.old ≡ replicate (length lengths.old) 0) }
    ensures { Filled text.now (length kinds.old) (length places.old) (length lengths.old) kinds.new places.new lengths.new result }
{
    let end = text.len();
    let mut cursor = Cursor::new(text);
    let mut n = 0;
    let mut b = Open { count: 0, bad: end };
    while let Some((token, next)) = cursor.token(text) {
        n = put(kinds, places, lengths, n, token);
        b = bracket(b, token.kind, token.start, end);
        cursor = next;
    }
    Stop {
        at: cursor.at,
        n,
        bad: b.bad,
    }
}

// Refusals 2 and 6.
fn late(stop: Stop, end: usize) -> Result<(), Broken>
    ensures { Late stop end result }
{
    let (number, place) = if stop.at < end {
        (Refusal::LEXICAL, stop.at)
    } else if stop.bad < end {
        (Refusal::LIMIT, stop.bad)
    } else if TokenList::LIMIT < stop.n {
        (Refusal::LIMIT, end)
    } else {
        return Ok(());
    };
    Err(Broken { number, place })
}

// All three columns, set to zero.
fn clear(kinds: &mut [u8], places: &mut [usize], lengths: &mut [usize])
    ensures kinds_after { kinds.new ≡ replicate (length kinds.old) 0 }
    ensures places_after { places.new ≡ replicate (length places.old) 0 }
    ensures lengths_after { lengths.new ≡ replicate (length lengths.old) 0 }
{
    blank::clear_bytes(kinds);
    blank::clear_places(places);
    blank::clear_places(lengths);
}

// The columns have a cell for each token that a text may have.
fn room(kinds: usize, places: usize, lengths: usize) -> bool
    ensures { RoomIs kinds places lengths result }
{
    TokenList::LIMIT <= kinds && TokenList::LIMIT <= places && TokenList::LIMIT <= lengths
}

// The tokens of a text, as below, in columns that are blank.
pub fn into_blank(
    text: &[u8],
    kinds: &mut [u8],
    places: &mut [usize],
    lengths: &mut [usize],
) -> Read
    requires { (kinds.old ≡ replicate (length kinds.old) 0) × (places.old ≡ replicate (length places.old) 0) × (lengths.old ≡ replicate (length lengths.old) 0) }
    ensures { Reads text.now (length kinds.old) (length places.old) (length lengths.old) kinds.new places.new lengths.new result }
{
    if !room(kinds.len(), places.len(), lengths.len()) {
        return Read::Short;
    }
    if let Err(Broken { number, place }) = early(text) {
        return Read::Refused(number, place);
    }
    let stop = fill(text, kinds, places, lengths);
    if let Err(Broken { number, place }) = late(stop, text.len()) {
        clear(kinds, places, lengths);
        return Read::Refused(number, place);
    }
    Read::Tokens(stop.n)
}

// The tokens of a text: kind, place and length of each, and zeros behind the last; or why it is refused, and zeros.
pub fn tokens(text: &[u8], kinds: &mut [u8], places: &mut [usize], lengths: &mut [usize]) -> Read
    ensures { Reads text.now (length kinds.old) (length places.old) (length lengths.old) kinds.new places.new lengths.new result }
{
    clear(kinds, places, lengths);
    into_blank(text, kinds, places, lengths)
}

// The tokens that are names: of data items, of tasks, and bare in expressions, which are atoms without quotes, no functors and not assigned to.
#![tactic(auto)]

mod within;

ghost use Rattle.std.specs.Prelude.{◌≡◌};
ghost use Rattle.bare_tokens.specs.Bare as bare;
ghost use Rattle.bare_tokens.specs.Listed as listed;

use leaves::cell;
use parts::byte;
use terminals::Terminal;
use within::{NONE, Within, before};

// The terminal behind the token i.
fn after(kinds: &[u8], i: usize) -> u8
    ensures { result ≡ bare.after kinds.now i }
{
    byte(kinds, i.saturating_add(1))
}

// Whether a name behind this terminal may be assigned to.
fn starts(last: u8) -> bool
    ensures { result ≡ bare.starts last }
{
    matches!(
        last,
        Terminal::DOUBLE_COLON | Terminal::AND | Terminal::LEFT_PARENTHESIS
    )
}

// Whether a name between these terminals is assigned to.
fn is_target(w: Within, last: u8, next: u8) -> bool
    ensures { result ≡ bare.is_target w last next }
{
    w.word == Terminal::POSTCONDITION
        && w.depth == w.base
        && next == Terminal::EQUALS
        && starts(last)
}

fn is_atom(k: u8) -> bool
    ensures { result ≡ bare.is_atom k }
{
    matches!(
        k,
        Terminal::OTHER_ATOM | Terminal::YES_OR_NO | Terminal::DATA_TYPE
    )
}

// Whether the token i is an atom without quotes.
fn is_plain(text: &[u8], kinds: &[u8], places: &[usize], i: usize) -> bool
    ensures { result ≡ bare.is_plain text.now kinds.now places.now i }
{
    is_atom(byte(kinds, i)) && byte(text, cell(places, i)) != b'\''
}

// Whether what stands at the token i is neither a functor nor assigned to.
fn is_read(kinds: &[u8], i: usize, w: Within) -> bool
    ensures { result ≡ bare.is_read kinds.now i w }
{
    let next = after(kinds, i);
    next != Terminal::LEFT_PARENTHESIS && !is_target(w, before(kinds, i), next)
}

fn is_bare(text: &[u8], kinds: &[u8], places: &[usize], i: usize, w: Within) -> bool
    ensures { result ≡ bare.is_bare text.now kinds.now places.now i w }
{
    w.word != NONE && is_plain(text, kinds, places, i) && is_read(kinds, i, w)
}

// The word that declares the token i as a name, two tokens before it.
fn declaring(kinds: &[u8], i: usize) -> u8
    ensures { result ≡ bare.declaring kinds.now i }
{
    if before(kinds, i) == Terminal::DOUBLE_COLON {
        before(kinds, i - 1)
    } else {
        NONE
    }
}

fn is_task(k: u8) -> bool
    ensures { result ≡ bare.is_task k }
{
    matches!(k, Terminal::PLAN | Terminal::ACTION | Terminal::ENQUIRY)
}

// How many tokens there are of each sort.
#[derive(Clone, Copy)]
pub struct Counts {
    pub items: usize,
    pub tasks: usize,
    pub bare: usize,
}

// The token i behind the n of a list, if it is one more and there is room.
fn put(list: &mut [usize], n: usize, one: bool, i: usize) -> usize
    ensures { listed.Put list.old n one i list.new result }
{
    if !one || list.len() <= n {
        return n;
    }
    list[n] = i;
    n + 1
}

// The names among the first n tokens: of data items, of tasks, and bare in expressions.
pub fn collect(
    text: &[u8],
    kinds: &[u8],
    places: &[usize],
    n: usize,
    items: &mut [usize],
    tasks: &mut [usize],
    names: &mut [usize],
) -> Counts
    ensures { bare.Collected text.now kinds.now places.now n items.old tasks.old names.old items.new tasks.new names.new result }
{
    let mut counts = Counts {
        items: 0,
        tasks: 0,
        bare: 0,
    };
    let mut w = Within::behind(NONE);
    for i in 0..n {
        w = w.on(byte(kinds, i), before(kinds, i));
        let k = declaring(kinds, i);
        counts.items = put(items, counts.items, k == Terminal::DATA, i);
        counts.tasks = put(tasks, counts.tasks, is_task(k), i);
        counts.bare = put(names, counts.bare, is_bare(text, kinds, places, i, w), i);
    }
    counts
}

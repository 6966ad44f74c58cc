// Where a part of an expression stands in the text: atoms, numbers and texts have the same order among the tokens and among the parts.
ghost use Rattle.std.specs.Prelude.{◌≡◌, cond};
ghost use Rattle.told_refusal.specs.Leaves as defined;

use leaves::cell;
use limits::TokenList;
use parts::{Code, byte, code, size};
use sentences::{slips, write};
use terminals::Terminal;

// Whether a parenthesis opens behind the token i.
fn is_call(kinds: &[u8], i: usize) -> bool
    ensures { result ≡ defined.is_call kinds.now i }
{
    byte(kinds, i.saturating_add(1)) == Terminal::LEFT_PARENTHESIS
}

// Whether the token i is an atom, a number or a text, and no functor.
fn is_leaf(kinds: &[u8], i: usize) -> bool
    ensures { result ≡ defined.is_leaf kinds.now i }
{
    let k = byte(kinds, i);
    Terminal::OTHER_ATOM <= k && (Terminal::DATA_TYPE < k || !is_call(kinds, i))
}

// The first such token from i on.
fn next(kinds: &[u8], i: usize) -> usize
    ensures { result ≡ defined.next_leaf kinds.now i }
{
    for k in i..kinds.len() {
        if is_leaf(kinds, k) {
            return k;
        }
    }
    i.max(kinds.len())
}

// The first such token behind i.
fn behind(kinds: &[u8], i: usize) -> usize
    ensures { result ≡ defined.leaf_behind kinds.now i }
{
    if i < TokenList::LIMIT {
        next(kinds, i + 1)
    } else {
        i
    }
}

// The token of the next such part, where t is that of the part p, if it is one.
fn past(cells: &[u32], kinds: &[u8], t: usize, p: usize) -> usize
    ensures { result ≡ cond (defined.leaf_part cells.now p) (defined.leaf_behind kinds.now t) t }
{
    if code(cells, p) < Code::LIST {
        behind(kinds, t)
    } else {
        t
    }
}

// The first token of the part `to`, where the expression's first part is `from` and its first token i.
fn token(cells: &[u32], from: usize, to: usize, kinds: &[u8], i: usize) -> usize
    ensures { result ≡ defined.token_of cells.now from to kinds.now i }
{
    let mut t = next(kinds, i);
    for p in from..to {
        t = past(cells, kinds, t, p);
    }
    t
}

// Where the part `p` stands, if that is not where its expression begins, with the part `from` and the token i.
pub fn tell(
    text: &[u8],
    cells: &[u32],
    from: usize,
    p: usize,
    kinds: &[u8],
    places: &[usize],
    i: usize,
) {
    if let Some(first) = p.checked_sub(size(cells, p)) {
        let t = token(cells, from, first, kinds, i);
        if i < t {
            write::text(b" That is at ");
            slips::place(text, cell(places, t));
            write::text(b".");
        }
    }
}

// Around the cycle: a single token, a functor name, elements, and a bracket that closes.
ghost use Rattle.std.specs.Prelude.{◌≡◌, true, false, length, ◌≤◌, ◌<◌};
ghost use Rattle.paper_guideline.specs.Limits.{larger as largerOf};
ghost use Rattle.leaves.specs.Source.{source_of};
ghost use Rattle.expression_reader.specs.Single.{SaysAt, SaysHeadAt, ReadsSingle, Calls, Rounds, Also, Closes};

use expression_steps::{Built, deeper, kind_at, put, refused};
use leaves::{Tokens, Word};
use terminals::Terminal;

// The part that the token `p` is by itself.
fn leaf_at(tokens: Tokens, p: usize) -> Word
    ensures { SaysAt (source_of tokens.entry) p result }
{
    let at = tokens.place(p);
    let n = tokens.length(p);
    if leaves::fits(tokens.text, at, n) {
        leaves::leaf(tokens.text, parts::byte(tokens.kinds, p), at, n)
    } else {
        Word { kind: 0, load: 0 }
    }
}

// The part of a call whose functor name is the token `p`.
pub fn head_at(tokens: Tokens, p: usize) -> Word
    ensures { SaysHeadAt tokens.entry.text.now tokens.entry.places.now tokens.entry.lengths.now p result }
{
    let at = tokens.place(p);
    let n = tokens.length(p);
    if leaves::fits(tokens.text, at, n) {
        leaves::head(tokens.text, at, n)
    } else {
        Word { kind: 0, load: 0 }
    }
}

// An atom, a number or a string.
pub fn single(tokens: Tokens, cells: &mut [u32], p: usize, u: usize) -> Built
    requires { u ≤ p }
    ensures { ReadsSingle (source_of tokens.entry) cells.old cells.new p u result }
{
    if !matches!(
        kind_at(tokens.kinds, p),
        Terminal::OTHER_ATOM..=Terminal::STRING
    ) {
        return refused();
    }
    let w = leaf_at(tokens, p);
    put(cells, u, w.kind, 0, u, w.load);
    Built {
        ok: true,
        next: p + 1,
        used: u + 1,
        depth: 1,
        longest: 0,
    }
}

// Whether an atom with a parenthesis behind it stands at `p`.
pub fn calls(kinds: &[u8], p: usize) -> bool
    ensures { Calls kinds.now p result }
{
    matches!(
        kind_at(kinds, p),
        Terminal::OTHER_ATOM..=Terminal::DATA_TYPE
    ) && kind_at(kinds, p + 1) == Terminal::LEFT_PARENTHESIS
}

// What the parenthesis at `j` closes: it is no part, and adds to the depth.
pub fn rounded(kinds: &[u8], j: usize, e: Built) -> Built
    requires { j < length kinds.now }
    ensures { Rounds kinds.now j e result }
{
    Built {
        ok: true,
        next: j + 1,
        used: e.used,
        depth: deeper(e.depth, 1, kinds.len()),
        longest: e.longest,
    }
}

// The elements so far, and one more.
pub fn also(m: Built, e: Built) -> Built
    ensures { Also m e result }
{
    Built {
        ok: true,
        next: e.next,
        used: e.used,
        depth: m.depth.max(e.depth),
        longest: m.longest.max(e.longest),
    }
}

// The most elements of a list, where `n` elements are closed. Only those of a list count.
fn elements(close: u8, n: usize, longest: usize) -> usize
    ensures { (close ≡ 79 → result ≡ largerOf n longest) × (¬ (close ≡ 79) → result ≡ longest) }
{
    if close == Terminal::RIGHT_BRACKET {
        n.max(longest)
    } else {
        longest
    }
}

// The part of the `n` elements, in the rows from `u` on, that the next token closes.
pub fn closed(
    kinds: &[u8],
    cells: &mut [u32],
    u: usize,
    m: Built,
    n: usize,
    close: u8,
    h: Word,
) -> Built
    requires { m.used ≤ m.next }
    ensures { Closes kinds.now cells.old cells.new u m n close h result }
{
    if kinds.len() <= m.next {
        return refused();
    }
    put(cells, m.used, h.kind, n, u, h.load);
    Built {
        ok: true,
        next: m.next + 1,
        used: m.used + 1,
        depth: deeper(m.depth, 1, kinds.len()),
        longest: elements(close, n, m.longest),
    }
}

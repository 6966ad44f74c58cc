// What the rows amount to, one more added.
ghost use Rattle.std.specs.Prelude.{◌≡◌, ◌≤◌};
ghost use Rattle.guideline_turns.specs.Made.{large_in};
ghost use Rattle.guideline_walk.specs.Made.{one as one_of, least as least_of, then_parts, place_of, Small, Adds};

use super::Totals;
use guideline_turns::{Entry, Extent};
use terminals::Terminal;

// 1 if a row of kind `k` is of the kind, and 0 if it is not.
fn one(k: u8, kind: u8) -> usize
    ensures { (result ≡ one_of k kind) × (result ≤ 1) }
{
    usize::from(k == kind)
}

// The smaller of two places, of which the first is there or not.
fn least(some: bool, place: usize, start: usize) -> usize
    ensures { result ≡ least_of some place start }
{
    if some { place.min(start) } else { start }
}

// The parts in use, behind an expression if there is one.
fn parts_then(used: usize, x: Option<Extent>) -> usize
    ensures { result ≡ then_parts used x }
{
    x.map_or(used, |e| e.end)
}

// Whether an expression is large.
fn large(x: Option<Extent>) -> bool
    ensures { result ≡ large_in x }
{
    x.is_some_and(|e| e.large)
}

// The smallest place of a large expression, with that of the row besides.
fn place(w: Totals, x: Option<Extent>) -> usize
    ensures { result ≡ place_of w x }
{
    match x {
        Some(e) if e.large => least(w.large, w.place, e.start),
        _ => w.place,
    }
}

// The row besides; `o` is the place behind its texts.
pub fn add(w: Totals, t: Entry, o: usize) -> Totals
    requires { Small w }
    ensures { Adds w t o result }
{
    let k = t.kind;
    let tasks = one(k, Terminal::PLAN) + one(k, Terminal::ACTION) + one(k, Terminal::ENQUIRY);
    Totals {
        ok: w.ok,
        rows: w.rows + 1,
        parts: parts_then(w.parts, t.expression),
        bytes: o,
        tasks: w.tasks + tasks,
        items: w.items + one(k, Terminal::DATA),
        assignments: w.assignments + one(k, Terminal::EQUALS),
        sources: w.sources + one(k, Terminal::SOURCE),
        large: w.large || large(t.expression),
        place: place(w, t.expression),
    }
}

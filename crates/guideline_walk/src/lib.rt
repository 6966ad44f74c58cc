// One walk over the tokens of a guideline: the rows of its structure, their expressions in the part table, their names and texts
// in the text bytes, and what they amount to. A row, a part or a text for which there is no room is counted and not written.
#![tactic(auto)]

mod adding;
mod table;
mod texts;

ghost use Rattle.std.specs.Prelude.{◌≡◌, false};
ghost use Rattle.leaves.specs.Source.{source};
ghost use Rattle.guideline_walk.specs.Made.{Small, Writes, Walks};

use guideline_turns::{Entry, Mode, step};
use leaves::Tokens;

// What the rows passed amount to.
#[derive(Clone, Copy)]
pub struct Totals {
    pub ok: bool,
    pub rows: usize,
    pub parts: usize,
    // the place behind the names and texts, or one that no handle leads to if there was no room for them
    pub bytes: usize,
    pub tasks: usize,
    pub items: usize,
    pub assignments: usize,
    pub sources: usize,
    // whether an expression is too deep or has too long a list, and the smallest place where such a one starts; 0 if there is none
    pub large: bool,
    pub place: usize,
}

fn stuck() -> Totals
    ensures { result.ok ≡ false }
{
    Totals {
        ok: false,
        rows: 0,
        parts: 0,
        bytes: 0,
        tasks: 0,
        items: 0,
        assignments: 0,
        sources: 0,
        large: false,
        place: 0,
    }
}

// Writes the row that a turn gave, if any, with its name and the texts of its expression, and adds it up.
fn write(
    tokens: Tokens,
    rows: &mut [u32],
    cells: &mut [u32],
    bytes: &mut [u8],
    w: Totals,
    row: Option<Entry>,
) -> Totals
    requires { Small w }
    ensures { Writes tokens.entry.text.now tokens.entry.places.now tokens.entry.lengths.now rows.old rows.new cells.old cells.new bytes.old bytes.new w row result }
{
    let Some(t) = row else {
        return w;
    };
    let m = texts::move_name(tokens, bytes, t.name, w.bytes);
    let o = texts::move_texts(tokens.text, cells, bytes, t.expression, m.behind);
    table::put(rows, w.rows, t, m.handle);
    adding::add(w, t, o)
}

// Writes the guideline that the tokens are: eight cells for each row, four for each part, and its texts.
pub fn walk(
    text: &[u8],
    kinds: &[u8],
    places: &[usize],
    lengths: &[usize],
    rows: &mut [u32],
    cells: &mut [u32],
    bytes: &mut [u8],
) -> Totals
    ensures { Walks (source text.now kinds.now places.now lengths.now) rows.old rows.new cells.old cells.new bytes.old bytes.new result }
{
    let tokens = Tokens {
        text,
        kinds,
        places,
        lengths,
    };
    let mut w = Totals {
        ok: true,
        rows: 0,
        parts: 0,
        bytes: 0,
        tasks: 0,
        items: 0,
        assignments: 0,
        sources: 0,
        large: false,
        place: 0,
    };
    let mut p = 0;
    let mut mode = Mode::Row;
    while p < kinds.len() {
        let Some(t) = step(tokens, cells, p, mode, w.parts) else {
            return stuck();
        };
        w = write(tokens, rows, cells, bytes, w, t.row);
        p = t.next;
        mode = t.mode;
    }
    w
}

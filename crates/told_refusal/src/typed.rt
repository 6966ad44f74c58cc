// Refusal 5: what type an expression has and what was wanted; or the smallest part that has no type, and what it is given.
ghost use Rattle.std.specs.Option.{unwrap_or};
ghost use Rattle.std.specs.Prelude.{◌<◌, IfSome};
ghost use Rattle.parts.specs.Part.{table};
ghost use Rattle.row_tests.specs.Table.{cell_of};
ghost use Rattle.told_refusal.specs.Settled.{Spelt, Settled, FirstUntyped};

use explain_rows::firsts::{Sort, named};
use explain_rows::types::{Wanted, asked, letter, operand, untyped};
use limits::{DataItems, Expressions};
use parts::{Code, Declared, byte, code, count, load};
use row_tests::cells::{ROWS, declared, end, first_part, handle};
use sentences::slips::Sheet;
use sentences::{slips, write};
use types::columns::gather;

// The number of a declared type: boolean.
const BOOLEAN: usize = Declared::BOOLEAN as usize;

// What the data item of the row `i` takes.
fn takes(sheet: Sheet, i: usize) {
    write::text(b"the data item ");
    sheet.name(i);
    write::text(b" of ");
    sheet.stands(i);
    write::text(b", takes ");
    type_words::declared(declared(sheet.rows, i));
}

// What was wanted of the row `j`.
fn wanted(sheet: Sheet, j: usize) {
    match asked(sheet.rows, sheet.n, sheet.bytes, j) {
        Wanted::Truth => write::text(b"a condition has to be a truth value, as a comparison is"),
        Wanted::Text => write::text(b"a caption or description has to be a text"),
        Wanted::Item(i) => takes(sheet, i),
    }
}

// Why the atom with the handle `h` is a text, where that may surprise: no data item has the name, or one that is boolean.
fn atom(sheet: Sheet, h: usize) {
    match named(sheet.rows, sheet.bytes, Sort::Item, true, h, sheet.n) {
        Some(i) if declared(sheet.rows, i) == BOOLEAN => {
            write::text(b" ");
            slips::name(sheet.bytes, h);
            write::text(b" is boolean, and so a text: it can be compared with yes or no.");
        }
        Some(_) => {}
        None => {
            write::text(b" ");
            slips::name(sheet.bytes, h);
            write::text(b" is no data item, and so a text.");
            sheet.remark(Sort::Item, h);
        }
    }
}

// .. of the part that ends at `q`, if it is an atom.
fn why_text(sheet: Sheet, cells: &[u32], q: usize) {
    if let Some(p) = q.checked_sub(1) {
        if code(cells, p) == Code::ATOM {
            atom(sheet, load(cells, p) as usize);
        }
    }
}

// An expression that has a type, `found`, but not the one that was wanted.
fn misfit(sheet: Sheet, j: usize, found: u8) {
    write::text(b"This is ");
    type_words::kind(found);
    write::text(b"; ");
    wanted(sheet, j);
    write::text(b".");
}

// The type of the operand of the part `p` behind which there are k others.
fn given_at(cells: &[u32], letters: &[u8], p: usize, k: usize) {
    if let Some(q) = operand(cells, p, k).checked_sub(1) {
        type_words::kind(byte(letters, q));
    }
}

// What stands between two operands, the later one with k others behind it.
fn between(k: usize) {
    match k {
        0 => {}
        1 => write::text(b" and "),
        _ => write::text(b", "),
    }
}

// The types of the operands of the part `p`, `c` of them, from the first on.
fn given(cells: &[u32], letters: &[u8], p: usize, c: usize) {
    if c == 0 {
        write::text(b"nothing");
    }
    for k in (0..c).rev() {
        given_at(cells, letters, p, k);
        between(k);
    }
}

// Why each operand that is an atom is a text.
fn why_texts(sheet: Sheet, cells: &[u32], p: usize) {
    for k in (0..count(cells, p)).rev() {
        why_text(sheet, cells, operand(cells, p, k));
    }
}

// An operator that doesn't take what it is given.
fn application(cells: &[u32], letters: &[u8], p: usize) {
    type_words::spelt(code(cells, p));
    write::text(b" is given ");
    given(cells, letters, p, count(cells, p));
    write::text(b"; it takes ");
    type_words::takes(code(cells, p));
    write::text(b".");
}

// A list of elements that don't go together.
fn list(cells: &[u32], letters: &[u8], p: usize) {
    write::text(b"A list has texts only, or numbers only; this one has ");
    given(cells, letters, p, count(cells, p));
    write::text(b".");
}

// A functor that there is not.
fn no_functor(cells: &[u32], bytes: &[u8], p: usize) {
    write::text(b"There is no function ");
    slips::name(bytes, load(cells, p) as usize);
    write::text(
        b"; there are if, isknown, not, count, sum, max, min, nth, is_dormant, is_in_progress, is_discarded and is_completed.",
    );
}

// The part `p`, which has no type, though its operands have.
fn part(cells: &[u32], bytes: &[u8], letters: &[u8], p: usize) {
    match code(cells, p) {
        Code::LIST => list(cells, letters, p),
        Code::NO_SUCH => no_functor(cells, bytes, p),
        _ => application(cells, letters, p),
    }
}

// The letters of the types of the parts `from` up to `to`, where there is room.
fn spell(
    cells: &[u32],
    bytes: &[u8],
    names: &[u32],
    types: &[u8],
    from: usize,
    to: usize,
    letters: &mut [u8],
)
    ensures { Spelt (table cells.now bytes.now) names.now types.now from to letters.old letters.new }
{
    for p in from..to {
        if letters.len() <= p {
            return;
        }
        letters[p] = letter(cells, bytes, names, types, p + 1);
    }
}

// .. and the first of them that has no type.
fn settle(
    rows: &[u32],
    n: usize,
    cells: &[u32],
    bytes: &[u8],
    from: usize,
    to: usize,
    letters: &mut [u8],
) -> Option<usize>
    ensures settled { Settled rows.now n (table cells.now bytes.now) from to letters.old letters.new (unwrap_or result to) }
    ensures within { IfSome result (λ p. p < to) }
{
    if ROWS < n {
        return None;
    }
    let mut names = [0u32; DataItems::LIMIT];
    let mut types = [0u8; DataItems::LIMIT];
    let m = gather(rows, n, &mut names, &mut types);
    if DataItems::LIMIT < m {
        return None;
    }
    spell(cells, bytes, &names[..m], &types, from, to, letters);
    untyped(cells, bytes, &names[..m], &types, from, to)
}

// The sentence on the expression of the row `j` that ends at `e`, and whose first part without a type is `p`.
fn tell(sheet: Sheet, cells: &[u32], letters: &[u8], j: usize, e: usize, p: Option<usize>) {
    if let Some(p) = p {
        part(cells, sheet.bytes, letters, p);
        why_texts(sheet, cells, p);
    } else if let Some(last) = e.checked_sub(1) {
        misfit(sheet, j, byte(letters, last));
        why_text(sheet, cells, e);
    }
}

// The sentence on the expression of the row `j`; answers its first part without a type.
pub fn why(sheet: Sheet, cells: &[u32], j: usize) -> Option<usize>
    ensures first { FirstUntyped sheet.entry.rows.now sheet.entry.n (table cells.now sheet.entry.bytes.now) (cell_of sheet.entry.rows.now j 4) (cell_of sheet.entry.rows.now j 6) (unwrap_or result (cell_of sheet.entry.rows.now j 6)) }
    ensures within { IfSome result (λ p. p < cell_of sheet.entry.rows.now j 6) }
{
    let mut letters = [0u8; Expressions::PARTS];
    let e = end(sheet.rows, j);
    let p = settle(
        sheet.rows,
        sheet.n,
        cells,
        sheet.bytes,
        first_part(sheet.rows, j),
        e,
        &mut letters,
    );
    tell(sheet, cells, &letters, j, e, p);
    p
}

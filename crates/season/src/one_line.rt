// One line: its values are added to the guideline as it was loaded, the guideline runs, and the answer is written.
ghost use Rattle.std.specs.Prelude.{◌≡◌, List, ◌++◌, ℕ, length};
ghost use Rattle.digits.specs.Appends.{Appends};
ghost use Rattle.season_answer.specs.Columns.{item_count};
ghost use Rattle.season_answer.specs.Fields as fields;
ghost use Rattle.season.specs.UntilQuiet as calls;
ghost use Rattle.season.specs.Lines.{unread_line};
ghost use Rattle.season.specs.OneLine as answers;

use crate::joined::{Cells, parts_of, plan_of, state_of};
use crate::until_quiet::Ended;
use crate::{fields, one_value, reports, until_quiet};
use field_values::Refusal;
use limits::{DataItems, WaitTable};
use season_answer::{blanks, ended, item_values, labels, no_labels, reached, refused, unread};
use separated::field;
use state::{Plan, cell};

// What is the same for all lines: the number of columns, the separator, whether actions are confirmed.
#[derive(Clone, Copy)]
pub struct Season {
    pub many: usize,
    pub separator: u8,
    pub confirms: bool,
}

// The first refusal of a line: its number, none if there is none, and the handle of its data item's name.
// stays: promise of AllEntered, which has both, also where there is none
#[derive(Drop)]
struct First {
    number: u8,
    name: usize,
}

// Tells the refusal of the field `f` in the column `i`, if there is one.
fn tell(line: u64, i: usize, texts: &[u8], name: usize, number: u8, f: &[u8], declared: u32) {
    if number != Refusal::NONE {
        reports::value(line, i, texts, name, number, f, declared);
    }
}

// Adds the field `i`: the number of its refusal, which is told, or none.
fn add_field(
    plan: &[u32],
    columns: &[u32],
    kept: &[u8],
    ends: &[usize],
    i: usize,
    line: u64,
    texts: &mut [u8],
    state: &mut [u32],
) -> First
    ensures { answers.Entered columns.now kept.now ends.now plan.now i texts.old state.old texts.new state.new result.number result.name }
{
    let d = fields::item_of(columns, i);
    let name = cell(plan, Plan::ITEM_NAME, d);
    if DataItems::LIMIT <= d {
        return First {
            number: Refusal::NONE,
            name,
        };
    }
    let f = field(kept, ends, i);
    let number = one_value::add(texts, plan, state, d as u32, f);
    let declared = blocks::cell(plan, Plan::ITEM_TYPE + d);
    tell(line, i, texts, name, number, f, declared);
    First { number, name }
}

// The first of two.
fn earlier(a: First, b: First) -> First
    ensures { (result.number ≡ answers.earlier a.number a.number b.number) × (result.name ≡ answers.earlier a.number a.name b.name) }
{
    if a.number != Refusal::NONE { a } else { b }
}

// Adds the fields of the first `many` columns.
fn add_fields(
    plan: &[u32],
    columns: &[u32],
    many: usize,
    kept: &[u8],
    ends: &[usize],
    line: u64,
    texts: &mut [u8],
    state: &mut [u32],
) -> First
    ensures { answers.AllEntered columns.now kept.now ends.now plan.now texts.old state.old many texts.new state.new result.number result.name }
{
    let mut r = First {
        number: Refusal::NONE,
        name: 0,
    };
    for i in 0..many {
        let one = add_field(plan, columns, kept, ends, i, line, texts, state);
        r = earlier(r, one);
    }
    r
}

// The answer of a line with a refused value: it did not run.
fn write_refused(
    plan: &[u32],
    texts: &[u8],
    r: First,
    separator: u8,
    out: &mut [u8],
    o: usize,
) -> usize
    ensures { Appends out.old out.new o result (fields.blanks_written (item_count plan.now) separator ++ fields.refused_written r.number texts.now r.name separator) }
{
    let p = blanks(plan, separator, out, o);
    refused(r.number, texts, r.name, separator, out, p)
}

// The answer of a line that ran.
fn write_ended(
    plan: &[u32],
    texts: &[u8],
    state: &[u32],
    e: Ended,
    separator: u8,
    out: &mut [u8],
    o: usize,
) -> usize
    ensures { Appends out.old out.new o result (fields.values_written plan.now texts.now state.now separator ++ fields.reached_written plan.now texts.now state.now separator ++ fields.ended_written e.ending e.cycles separator) }
{
    let p = item_values(plan, texts, state, separator, out, o);
    let q = reached(plan, texts, state, separator, out, p);
    ended(e.ending, e.cycles, separator, out, q)
}

// The line in these tables, which hold the guideline as it was loaded; its labels are written.
fn in_tables(
    parts: &[u32],
    plan: &[u32],
    waits: WaitTable,
    columns: &[u32],
    kept: &[u8],
    ends: &[usize],
    s: Season,
    line: u64,
    texts: &mut [u8],
    state: &mut [u32],
    out: &mut [u8],
    o: usize,
) -> usize
    ensures { (w : List ℕ) × answers.Written parts.now plan.now waits (calls.line columns.now s.many kept.now ends.now s.confirms) s.separator texts.old state.old texts.new state.new w × Appends out.old out.new o result w }
{
    let r = add_fields(plan, columns, s.many, kept, ends, line, texts, state);
    if r.number != Refusal::NONE {
        return write_refused(plan, texts, r, s.separator, out, o);
    }
    let e = until_quiet::run(
        parts, texts, plan, waits, state, columns, s.many, kept, ends, s.confirms,
    );
    write_ended(plan, texts, state, e, s.separator, out, o)
}

// The same, from a copy of the texts and the state that load left.
fn in_copies(
    tables: &[u32],
    waits: WaitTable,
    texts: &[u8],
    columns: &[u32],
    kept: &[u8],
    ends: &[usize],
    s: Season,
    line: u64,
    bytes: &mut [u8],
    cells: &mut [u32],
    out: &mut [u8],
    o: usize,
) -> usize
    ensures { length bytes.old ≡ 65536 → length cells.old ≡ 2952 → (w : List ℕ) × answers.FromLoaded tables.now texts.now waits (calls.line columns.now s.many kept.now ends.now s.confirms) s.separator bytes.new cells.new w × Appends out.old out.new o result w }
{
    blocks::copy_bytes(texts, 0, bytes, 0, Cells::TEXTS);
    blocks::copy_cells(state_of(tables), 0, cells, 0, Cells::STATE);
    in_tables(
        parts_of(tables),
        plan_of(tables),
        waits,
        columns,
        kept,
        ends,
        s,
        line,
        bytes,
        cells,
        out,
        o,
    )
}

// Answers one line.
pub fn answer(
    tables: &[u32],
    waits: WaitTable,
    texts: &[u8],
    columns: &[u32],
    kept: &[u8],
    ends: &[usize],
    s: Season,
    line: u64,
    out: &mut [u8],
    o: usize,
) -> usize
    ensures { answers.LineAnswered tables.now texts.now waits (calls.line columns.now s.many kept.now ends.now s.confirms) s.separator out.old out.new o result }
{
    let mut texts_of_line = io::large_buffer();
    let mut state_of_line = [0u32; Cells::STATE];
    let p = labels(columns, s.many, kept, ends, s.separator, out, o);
    in_copies(
        tables,
        waits,
        texts,
        columns,
        kept,
        ends,
        s,
        line,
        &mut texts_of_line,
        &mut state_of_line,
        out,
        p,
    )
}

// Answers a line that can't be read.
pub fn unread_line(plan: &[u32], columns: &[u32], s: Season, out: &mut [u8], o: usize) -> usize
    ensures { Appends out.old out.new o result (unread_line columns.now s.many (item_count plan.now) s.separator) }
{
    let p = no_labels(columns, s.many, s.separator, out, o);
    let q = blanks(plan, s.separator, out, p);
    unread(s.separator, out, q)
}

// The fields of a line: which data item each is for, and those that an enquiry waits for.
ghost use Rattle.std.specs.Prelude.{◌≡◌};
ghost use Rattle.season.specs.Series as series;

use crate::one_value::add;
use asked::is_asked;
use field_values::Refusal;
use limits::DataItems;
use separated::field;
use state::cell;

// The data item of the column `i`, which has its number and one; none for a label, which has 0.
// stays: promise of Entered, which has the cell of the plan at this number, also where it is none
pub fn item_of(columns: &[u32], i: usize) -> usize
    ensures { result ≡ series.item_of columns.now i }
{
    let c = cell(columns, 0, i);
    if c == 0 { DataItems::LIMIT } else { c - 1 }
}

// Answers with the field `i`, if an enquiry waits for it and it has a value; whether that was done.
fn answer_one(
    plan: &[u32],
    columns: &[u32],
    kept: &[u8],
    ends: &[usize],
    i: usize,
    texts: &mut [u8],
    state: &mut [u32],
) -> bool
    ensures { series.Answered columns.now kept.now ends.now plan.now i texts.old state.old texts.new state.new result }
{
    let d = item_of(columns, i);
    if DataItems::LIMIT <= d {
        return false;
    }
    if !is_asked(plan, state, d) {
        return false;
    }
    let f = field(kept, ends, i);
    if f.len() == 0 {
        return false;
    }
    add(texts, plan, state, d as u32, f) == Refusal::NONE
}

// Answers with every such field; whether there was one.
pub fn answer_asked(
    plan: &[u32],
    columns: &[u32],
    many: usize,
    kept: &[u8],
    ends: &[usize],
    texts: &mut [u8],
    state: &mut [u32],
) -> bool
    ensures { series.AllAnswered columns.now kept.now ends.now plan.now texts.old state.old many texts.new state.new result }
{
    let mut any = false;
    for i in 0..many {
        let one = answer_one(plan, columns, kept, ends, i, texts, state);
        any = any || one;
    }
    any
}

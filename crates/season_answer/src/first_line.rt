// The first line of the answer.
ghost use Rattle.parts.specs.Texts.{text_at_fn};
ghost use Rattle.season_answer.specs.Columns.{item_count};
ghost use Rattle.digits.specs.Appends.{Appends};
ghost use Rattle.season_answer.specs.Fields.{field_written, names_written, heading_written};

use crate::called::name;
use crate::copied::labels;
use crate::found::count;
use crate::room::{each, field, front, last};
use state::{Plan, cell};

// As many bytes as a handle can tell.
const NAME: usize = 64;

fn item(texts: &[u8], h: usize, separator: u8, out: &mut [u8], o: usize) -> usize
    ensures { Appends out.old out.new o result (field_written separator (text_at_fn texts.now h)) }
{
    let mut w = [0u8; NAME];
    let k = name(texts, h, &mut w, 0);
    field(front(&w, k), separator, out, o)
}

// The names of the data items.
fn items(plan: &[u32], texts: &[u8], separator: u8, out: &mut [u8], o: usize) -> usize
    ensures { Appends out.old out.new o result (names_written plan.now texts.now (item_count plan.now) separator) }
{
    let n = count(plan);
    each(
        n,
        |d, out, o| item(texts, cell(plan, Plan::ITEM_NAME, d), separator, out, o),
        out,
        o,
    )
}

// The names of the labels as the sheet has them, those of the data items as the guideline has them, and what the answer adds.
pub fn heading(
    plan: &[u32],
    texts: &[u8],
    columns: &[u32],
    many: usize,
    kept: &[u8],
    ends: &[usize],
    separator: u8,
    out: &mut [u8],
    o: usize,
) -> usize
    ensures { Appends out.old out.new o result (heading_written plan.now texts.now (item_count plan.now) columns.now many kept.now ends.now separator) }
{
    let p = labels(columns, many, kept, ends, separator, out, o);
    let q = items(plan, texts, separator, out, p);
    let r = field(b"reached", separator, out, q);
    let s = field(b"cycles", separator, out, r);
    last(b"ended", separator, out, s)
}

// The fields that label a line: they are copied.
ghost use Rattle.digits.specs.Appends.{Appends};
ghost use Rattle.season_answer.specs.Fields.{label_written, labels_written, no_label_written, no_labels_written};

use crate::found::Column;
use crate::room::{each, field as put_field, nothing};
use blocks::cell;
use separated::field;

fn label(
    columns: &[u32],
    kept: &[u8],
    ends: &[usize],
    i: usize,
    separator: u8,
    out: &mut [u8],
    o: usize,
) -> usize
    ensures { Appends out.old out.new o result (label_written columns.now kept.now ends.now separator i) }
{
    if cell(columns, i) == Column::LABEL {
        put_field(field(kept, ends, i), separator, out, o)
    } else {
        o
    }
}

// Those of the first `many` columns.
pub fn labels(
    columns: &[u32],
    many: usize,
    kept: &[u8],
    ends: &[usize],
    separator: u8,
    out: &mut [u8],
    o: usize,
) -> usize
    ensures { Appends out.old out.new o result (labels_written columns.now many kept.now ends.now separator) }
{
    each(
        many,
        |i, out, o| label(columns, kept, ends, i, separator, out, o),
        out,
        o,
    )
}

// The same of a line that can't be read: nothing in their place.
fn no_label(columns: &[u32], i: usize, separator: u8, out: &mut [u8], o: usize) -> usize
    ensures { Appends out.old out.new o result (no_label_written columns.now separator i) }
{
    if cell(columns, i) == Column::LABEL {
        nothing(separator, out, o)
    } else {
        o
    }
}

pub fn no_labels(columns: &[u32], many: usize, separator: u8, out: &mut [u8], o: usize) -> usize
    ensures { Appends out.old out.new o result (no_labels_written columns.now many separator) }
{
    each(
        many,
        |i, out, o| no_label(columns, i, separator, out, o),
        out,
        o,
    )
}

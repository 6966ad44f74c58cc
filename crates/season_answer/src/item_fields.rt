// The values of the data items, in the order of the guideline. What has no value is an empty field; an empty text stands between quotes.
ghost use Rattle.std.specs.Prelude.{◌≡◌, ◌≤◌, ◌<◌, length};
ghost use Rattle.paper_guideline.specs.Line.{value_written};
ghost use Rattle.values.specs.Meaning.{meaning_v};
ghost use Rattle.season_answer.specs.Columns.{item_count};
ghost use Rattle.digits.specs.Appends.{Appends};
ghost use Rattle.season_answer.specs.Fields.{no_bytes, EmptyText, value_field, item_written, values_written, blanks_written};

use crate::found::count;
use crate::room::{each, empty_text, field, front, nothing};
use values::{Scalar, Value};

// The most bytes of a value that cells show: 16 texts of 63 bytes, with a comma and a blank between them, and two brackets.
const WRITTEN: usize = 1_040;

fn is_empty(s: Scalar) -> bool
    ensures { result ≡ no_bytes s }
{
    matches!(s, Scalar::Text(h) if h.len == 0)
}

fn is_empty_text(v: Value) -> bool
    ensures { EmptyText v result }
{
    !v.many && is_empty(v.one)
}

// A value that has room.
fn value(texts: &[u8], v: Value, separator: u8, out: &mut [u8], o: usize) -> usize
    ensures { length (value_written (meaning_v texts.now v)) ≤ 1040 → Appends out.old out.new o result (value_field separator (meaning_v texts.now v)) }
{
    if is_empty_text(v) {
        return empty_text(separator, out, o);
    }
    let mut w = [0u8; WRITTEN];
    let k = written::value(texts, v, &mut w, 0);
    field(front(&w, k), separator, out, o)
}

// The value of the data item `d`.
fn item(texts: &[u8], state: &[u32], d: usize, separator: u8, out: &mut [u8], o: usize) -> usize
    requires { d < 64 }
    ensures { Appends out.old out.new o result (item_written texts.now state.now separator d) }
{
    if item_rows::has_value(state, d) {
        value(texts, item_rows::value_of(state, d), separator, out, o)
    } else {
        nothing(separator, out, o)
    }
}

// The values of all.
pub fn item_values(
    plan: &[u32],
    texts: &[u8],
    state: &[u32],
    separator: u8,
    out: &mut [u8],
    o: usize,
) -> usize
    ensures { Appends out.old out.new o result (values_written plan.now texts.now state.now separator) }
{
    let n = count(plan);
    each(
        n,
        |d, out, o| item(texts, state, d, separator, out, o),
        out,
        o,
    )
}

// Of a line that did not run: no value of any.
pub fn blanks(plan: &[u32], separator: u8, out: &mut [u8], o: usize) -> usize
    ensures { Appends out.old out.new o result (blanks_written (item_count plan.now) separator) }
{
    let n = count(plan);
    each(n, |_d, out, o| nothing(separator, out, o), out, o)
}

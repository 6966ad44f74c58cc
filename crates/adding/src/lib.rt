// 8.3.6, AddDataValue.
#![tactic(auto)]

ghost use Rattle.std.specs.Prelude.{◌<◌};
ghost use Rattle.adding.specs.Put.{Put, Stores};
ghost use Rattle.adding.specs.Add.{Adds};

use items::Form;
use limits::{DataItems, Guideline, Refusal};
use replying::Reply;
use state::{Plan, Requested, Tag, Values};
use values::Value;

// `requested` is false: the tag of true and false, and the number.
const TRUTH: u32 = Tag::TRUTH as u32;

const FALSE: u32 = 0;

// Writes the form of a value as that of the data item `d`, and that it is not requested.
fn put(texts: &mut [u8], s: &mut [u32], d: usize, cells: &[u32], out: &[u8])
    requires { d < 64 }
    ensures { Put cells.now out.now d s.old s.new texts.old texts.new }
{
    blocks::copy_cells(cells, 0, s, Values::TAGS + Values::CELLS * d, Values::CELLS);
    blocks::copy_cells(
        cells,
        Form::NUMBERS,
        s,
        Values::NUMBERS + Values::CELLS * d,
        Values::CELLS,
    );
    blocks::copy_bytes(
        out,
        0,
        texts,
        Guideline::LIMIT + Form::BYTES * d,
        Form::BYTES,
    );
    blocks::put_cell(s, Requested::TAGS + d, TRUTH);
    blocks::put_cell(s, Requested::NUMBERS + d, FALSE);
}

// Writes a value, whose texts stand in `bytes`, in its one form.
fn store(texts: &mut [u8], s: &mut [u32], d: usize, bytes: &[u8], v: Value)
    requires { d < 64 }
    ensures { Stores bytes.now v d s.old s.new texts.old texts.new }
{
    let mut cells = [0u32; Form::CELLS];
    let mut out = [0u8; Form::BYTES];
    items::encode(
        bytes,
        v,
        Guideline::LIMIT + Form::BYTES * d,
        &mut cells,
        &mut out,
    );
    put(texts, s, d, &cells, &out);
}

// Adds the value that is given to a data item: refused with 7, with 8 where there is no such item, with 9 where it is no value of the item's type, with 6 beyond the limits.
pub fn add(
    texts: &mut [u8],
    plan: &[u32],
    state: &mut [u32],
    item: u64,
    tags: &[u32],
    numbers: &[i64],
    bytes: &[u8],
) -> Reply
    ensures { Adds item tags.now numbers.now bytes.now texts.old plan.now state.old texts.new state.new result }
{
    if !replying::ready(state) {
        return Reply::Refused(Refusal::UNREADY);
    }
    let n = u64::from(blocks::cell(plan, Plan::ITEMS));
    if item >= n || item >= DataItems::LIMIT as u64 {
        return Reply::Refused(Refusal::NO_SUCH);
    }
    let d = item as usize;
    let k = blocks::cell(plan, Plan::ITEM_TYPE + d);
    if !value_given::typed(tags, numbers, k) {
        return Reply::Refused(Refusal::VALUE);
    }
    if !value_given::within(tags, numbers, bytes) {
        return Reply::Refused(Refusal::LIMIT);
    }
    store(texts, state, d, bytes, value_given::value(tags, numbers));
    Reply::Done
}

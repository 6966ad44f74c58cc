// The value of one field.
ghost use Rattle.season.specs.Series.{CellsAdded, ValueAdded, FieldAdded};
ghost use Rattle.field_values.specs.Reading.{field_as};
ghost use Rattle.std.specs.Prelude.{◌+◌, get_or};

use field_values::Refusal;
use replying::Reply;
use state::Plan;
use typed_value::Room;

// What the call of add replies to the cells of a field.
fn add_cells(
    texts: &mut [u8],
    plan: &[u32],
    state: &mut [u32],
    item: u32,
    tags: &[u32],
    numbers: &[i64],
    bytes: &[u8],
) -> u8
    ensures { CellsAdded item tags.now numbers.now bytes.now texts.old plan.now state.old texts.new state.new result }
{
    match adding::add(texts, plan, state, item as u64, tags, numbers, bytes) {
        Reply::Done => Refusal::NONE,
        Reply::Refused(number) => number,
    }
}

// The field goes to these cells and bytes, and is added.
fn through(
    texts: &mut [u8],
    plan: &[u32],
    state: &mut [u32],
    item: u32,
    field: &[u8],
    tags: &mut [u32],
    numbers: &mut [i64],
    bytes: &mut [u8],
) -> u8
    ensures { ValueAdded item (get_or plan.now (1320 + item) 0) tags.old numbers.old bytes.old texts.old plan.now state.old (field_as (get_or plan.now (1320 + item) 0) field.now) texts.new state.new result }
{
    let declared = blocks::cell(plan, Plan::ITEM_TYPE + item as usize);
    let refused = field_values::read(declared, field, tags, numbers, bytes);
    if refused != Refusal::NONE {
        return refused;
    }
    add_cells(texts, plan, state, item, tags, numbers, bytes)
}

// Adds the field as the value of the data item, nothing if it is empty: the number of the refusal, or none.
pub fn add(texts: &mut [u8], plan: &[u32], state: &mut [u32], item: u32, field: &[u8]) -> u8
    ensures { FieldAdded item field.now texts.old plan.now state.old texts.new state.new result }
{
    if field.len() == 0 {
        return Refusal::NONE;
    }
    let mut tags = [0u32; Room::CELLS];
    let mut numbers = [0i64; Room::CELLS];
    let mut bytes = [0u8; Room::BYTES];
    through(
        texts,
        plan,
        state,
        item,
        field,
        &mut tags,
        &mut numbers,
        &mut bytes,
    )
}

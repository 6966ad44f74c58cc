// What C and Rust link: the calls of exports. A crate of Rattle is a library or a static library, so this one hands each call on.
#![tactic(auto)]

ghost use Rattle.square.specs.Square.{square_of};
ghost use Rattle.load.specs.Loads.{lent, no_waits};
ghost use Rattle.exports.specs.Outcomes.{Runs, SetsTime, Confirms, Adds, Triggers};
ghost use Rattle.exports.specs.Loading.{Loads};
ghost use Rattle.exports.specs.Reading.{Reads};

use change_rows::Row;
use exports::Outcome;
use items::Form;
use limits::Waits;

#[unsafe(no_mangle)]
pub extern "C" fn schotterei_load(
    text: &[u8],
    rows: &mut [u32],
    parts: &mut [u32],
    plan: &mut [u32],
    waits: &mut [u8; Waits::BYTES],
    texts: &mut [u8],
    state: &mut [u32],
) -> Outcome
    ensures { Loads text.now (lent rows.old parts.old plan.old no_waits texts.old state.old) rows.new parts.new plan.new waits.new texts.new state.new result }
{
    exports::schotterei_load(text, rows, parts, plan, waits, texts, state)
}

#[unsafe(no_mangle)]
pub extern "C" fn schotterei_run(
    parts: &[u32],
    texts: &mut [u8],
    plan: &[u32],
    waits: &[u8],
    state: &mut [u32],
    changes: &mut [Row],
    bound: u64,
) -> Outcome
    ensures { Runs bound parts.now texts.old plan.now (square_of waits.now) state.old texts.new state.new changes.old changes.new result }
{
    exports::schotterei_run(parts, texts, plan, waits, state, changes, bound)
}

#[unsafe(no_mangle)]
pub extern "C" fn schotterei_set_time(state: &mut [u32], time: u64) -> Outcome
    ensures { SetsTime time state.old state.new result }
{
    exports::schotterei_set_time(state, time)
}

#[unsafe(no_mangle)]
pub extern "C" fn schotterei_confirm(plan: &[u32], state: &mut [u32], task: u64) -> Outcome
    ensures { Confirms task plan.now state.old state.new result }
{
    exports::schotterei_confirm(plan, state, task)
}

#[unsafe(no_mangle)]
pub extern "C" fn schotterei_add(
    texts: &mut [u8],
    plan: &[u32],
    state: &mut [u32],
    item: u64,
    tags: &[u32],
    numbers: &[i64],
    bytes: &[u8],
) -> Outcome
    ensures { Adds item tags.now numbers.now bytes.now texts.old plan.now state.old texts.new state.new result }
{
    exports::schotterei_add(texts, plan, state, item, tags, numbers, bytes)
}

#[unsafe(no_mangle)]
pub extern "C" fn schotterei_trigger(
    texts: &[u8],
    plan: &[u32],
    state: &mut [u32],
    name: &[u8],
) -> Outcome
    ensures { Triggers name.now texts.now plan.now state.old state.new result }
{
    exports::schotterei_trigger(texts, plan, state, name)
}

#[unsafe(no_mangle)]
pub extern "C" fn schotterei_read(
    texts: &[u8],
    plan: &[u32],
    waits: &[u8],
    state: &[u32],
    kind: u64,
    component: u64,
    property: u64,
    cells: &mut [u32; Form::CELLS],
    bytes: &mut [u8; Form::BYTES],
) -> row_numbers::Answer
    ensures { Reads kind component property texts.now plan.now (square_of waits.now) state.now cells.new bytes.new result }
{
    exports::schotterei_read(
        texts, plan, waits, state, kind, component, property, cells, bytes,
    )
}

// The public calls over slices of numbers, which exports_c hands on to C and Rust. Who waits for whom is 1,024 bytes, 1 for a mark.
// The names begin with the library's, since a program has one space of names for all that it links.
#![tactic(auto)]

ghost use Rattle.std.specs.Prelude.{◌≡◌};
ghost use Rattle.square.specs.Square.{square_of};
ghost use Rattle.replying.specs.Replying.{published};
ghost use Rattle.runs.specs.Run.{published as published-run};
ghost use Rattle.load.specs.Loads.{lent, no_waits};
ghost use Rattle.loaded.specs.Loaded.{published as published-load};
ghost use Rattle.exports.specs.Outcomes.{Tells, Runs, SetsTime, Confirms, Adds, Triggers};
ghost use Rattle.exports.specs.Loading.{Loads};
ghost use Rattle.exports.specs.Reading.{Reads};

use change_rows::Row;
use endings::Ending;
use items::Form;
use limits::Waits;
use replying::Reply;
use runs::Ran;

// number: 0, or that of the refusal; place and count: of a refusal; ending: of a run 1 quiet, 2 bounded, 3 exception, with its count of cycles; 0 else.
#[repr(C)]
#[derive(Drop)]
pub struct Outcome {
    pub number: u32,
    pub ending: u32,
    pub count: u32,
    pub place: u64,
}

fn told(number: u32, ending: u32, count: u32) -> Outcome
    ensures { (result.number ≡ number) × (result.ending ≡ ending) × (result.count ≡ count) × (result.place ≡ 0) }
{
    Outcome {
        number,
        ending,
        count,
        place: 0,
    }
}

fn loaded(r: load::Reply) -> Outcome
    ensures { Tells (published-load r) result }
{
    match r {
        load::Reply::Done => told(0, 0, 0),
        load::Reply::Refused(n, place) => Outcome {
            place: place as u64,
            ..told(u32::from(n), 0, 0)
        },
    }
}

fn replied(r: Reply) -> Outcome
    ensures { Tells (published r) result }
{
    match r {
        Reply::Done => told(0, 0, 0),
        Reply::Refused(n) => told(u32::from(n), 0, 0),
    }
}

fn ran(r: Ran) -> Outcome
    ensures { Tells (published-run r) result }
{
    match r {
        Ran::Quiet(k) => told(0, Ending::QUIET, k),
        Ran::Bounded(k) => told(0, Ending::BOUNDED, k),
        Ran::Exception(k) => told(0, Ending::EXCEPTION, k),
        Ran::Refused(n) => told(u32::from(n), 0, 0),
    }
}

#[unsafe(no_mangle)]
pub extern "C" fn schotterei_load(
    text: &[u8],
    rows: &mut [u32],
    parts: &mut [u32],
    plan: &mut [u32],
    waits: &mut [u8; Waits::BYTES],
    texts: &mut [u8],
    state: &mut [u32],
) -> Outcome
    ensures { Loads text.now (lent rows.old parts.old plan.old no_waits texts.old state.old) rows.new parts.new plan.new waits.new texts.new state.new result }
{
    let mut w = [[false; Waits::SIDE]; Waits::SIDE];
    let reply = load::load(text, rows, parts, plan, &mut w, texts, state);
    *waits = square::pack(w);
    loaded(reply)
}

#[unsafe(no_mangle)]
pub extern "C" fn schotterei_run(
    parts: &[u32],
    texts: &mut [u8],
    plan: &[u32],
    waits: &[u8],
    state: &mut [u32],
    changes: &mut [Row],
    bound: u64,
) -> Outcome
    ensures { Runs bound parts.now texts.old plan.now (square_of waits.now) state.old texts.new state.new changes.old changes.new result }
{
    let w = square::unpack(waits);
    ran(runs::run(parts, texts, plan, w, state, changes, bound))
}

#[unsafe(no_mangle)]
pub extern "C" fn schotterei_set_time(state: &mut [u32], time: u64) -> Outcome
    ensures { SetsTime time state.old state.new result }
{
    replied(clock::set_time(state, time))
}

#[unsafe(no_mangle)]
pub extern "C" fn schotterei_confirm(plan: &[u32], state: &mut [u32], task: u64) -> Outcome
    ensures { Confirms task plan.now state.old state.new result }
{
    replied(confirming::confirm(plan, state, task))
}

#[unsafe(no_mangle)]
pub extern "C" fn schotterei_add(
    texts: &mut [u8],
    plan: &[u32],
    state: &mut [u32],
    item: u64,
    tags: &[u32],
    numbers: &[i64],
    bytes: &[u8],
) -> Outcome
    ensures { Adds item tags.now numbers.now bytes.now texts.old plan.now state.old texts.new state.new result }
{
    replied(adding::add(texts, plan, state, item, tags, numbers, bytes))
}

#[unsafe(no_mangle)]
pub extern "C" fn schotterei_trigger(
    texts: &[u8],
    plan: &[u32],
    state: &mut [u32],
    name: &[u8],
) -> Outcome
    ensures { Triggers name.now texts.now plan.now state.old state.new result }
{
    replied(triggering::trigger(texts, plan, state, name))
}

#[unsafe(no_mangle)]
pub extern "C" fn schotterei_read(
    texts: &[u8],
    plan: &[u32],
    waits: &[u8],
    state: &[u32],
    kind: u64,
    component: u64,
    property: u64,
    cells: &mut [u32; Form::CELLS],
    bytes: &mut [u8; Form::BYTES],
) -> row_numbers::Answer
    ensures { Reads kind component property texts.now plan.now (square_of waits.now) state.now cells.new bytes.new result }
{
    let w = square::unpack(waits);
    let row = row_read::read(plan, w, state, kind, component, property);
    row_numbers::tell(texts, row, cells, bytes)
}

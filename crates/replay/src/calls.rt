// The calls of a script, each answered by the public call of its name.
ghost use Rattle.digits.specs.Appends.{Appends};
ghost use Rattle.replay.specs.Rows.{buffer};
ghost use Rattle.replay.specs.Calls.{tables, ran_written, LoadAnswered, RunsLent, TriggerAnswered, CallAnswered, LineAnswered};

use crate::listing::View;
use digits::word;
use limits::{Rows, WaitTable};
use runs::Ran;
use script::{Call, Given, Line};
use transcript::buffer::room;
use transcript::{counted, refused_line, replied};

// The most rows that a script lends.
const ROWS_LENT: u64 = 8_192;

// The place behind a line, and that behind its answer in the buffer.
#[derive(Drop)]
pub struct Answered {
    pub next: usize,
    pub o: usize,
}

// The text from `from` to `to`.
fn load(
    s: &[u8],
    from: usize,
    to: usize,
    parts: &mut [u32],
    plan: &mut [u32],
    waits: &mut WaitTable,
    texts: &mut [u8],
    state: &mut [u32],
    out: &mut [u8],
    o: usize,
) -> usize
    ensures { LoadAnswered s.now from to (tables parts.old plan.old waits.old texts.old state.old) (tables parts.new plan.new waits.new texts.new state.new) (buffer out.old o) (buffer out.new result) }
{
    if from > to || to > s.len() {
        return o;
    }
    let mut rows = [0u32; Rows::CELLS];
    match load::load(&s[from..to], &mut rows, parts, plan, waits, texts, state) {
        load::Reply::Done => word(b"loaded\n", out, o),
        load::Reply::Refused(n, place) => refused_line(n, place, out, o),
    }
}

// How a run ended, and the number of its cycles.
fn ran(r: Ran, out: &mut [u8], o: usize) -> usize
    ensures { Appends out.old out.new o result (ran_written r) }
{
    match r {
        Ran::Quiet(n) => counted(b"quiet", n, out, o),
        Ran::Bounded(n) => counted(b"bounded", n, out, o),
        Ran::Exception(n) => counted(b"exception", n, out, o),
        Ran::Refused(n) => refused_line(n, 0, out, o),
    }
}

// Runs with so many rows that are lent.
fn run(
    parts: &[u32],
    texts: &mut [u8],
    plan: &[u32],
    waits: WaitTable,
    state: &mut [u32],
    lent: u64,
    bound: u64,
) -> Ran
    ensures { RunsLent bound lent parts.now texts.old plan.now waits state.old texts.new state.new result }
{
    if ROWS_LENT < lent {
        return Ran::Refused(6);
    }
    runs::run_alone(parts, texts, plan, waits, state, lent as usize, bound)
}

// Sends the first n bytes.
fn trigger(
    texts: &[u8],
    plan: &[u32],
    state: &mut [u32],
    bytes: &[u8],
    n: usize,
    out: &mut [u8],
    o: usize,
) -> usize
    ensures { TriggerAnswered bytes.now n texts.now plan.now state.old state.new (buffer out.old o) (buffer out.new result) }
{
    if bytes.len() < n {
        return o;
    }
    replied(triggering::trigger(texts, plan, state, &bytes[..n]), out, o)
}

// The answer to the call of a line.
fn answer(
    l: Line,
    s: &[u8],
    tags: &[u32],
    numbers: &[i64],
    bytes: &[u8],
    parts: &mut [u32],
    plan: &mut [u32],
    waits: &mut WaitTable,
    texts: &mut [u8],
    state: &mut [u32],
    out: &mut [u8],
    o: usize,
) -> usize
    ensures { CallAnswered s.now tags.now numbers.now bytes.now l.call (tables parts.old plan.old waits.old texts.old state.old) (tables parts.new plan.new waits.new texts.new state.new) (buffer out.old o) (buffer out.new result) }
{
    match l.call {
        Call::Load(from, to) => load(s, from, to, parts, plan, waits, texts, state, out, o),
        Call::Run(bound, lent) => ran(run(parts, texts, plan, *waits, state, lent, bound), out, o),
        Call::Time(time) => replied(clock::set_time(state, time), out, o),
        Call::Confirm(task) => replied(confirming::confirm(plan, state, task), out, o),
        Call::Add(item) => replied(
            adding::add(texts, plan, state, item, tags, numbers, bytes),
            out,
            o,
        ),
        Call::Trigger(n) => trigger(texts, plan, state, bytes, n, out, o),
        Call::Row(kind, number, property) => View {
            texts,
            plan,
            waits,
            state,
        }
        .value(kind, number, property, out, o),
        Call::Rows => View {
            texts,
            plan,
            waits,
            state,
        }
        .all(out, o),
    }
}

// The answer to the line that begins here.
pub fn line(
    s: &[u8],
    at: usize,
    parts: &mut [u32],
    plan: &mut [u32],
    waits: &mut WaitTable,
    texts: &mut [u8],
    state: &mut [u32],
    out: &mut [u8],
    o: usize,
) -> Answered
    ensures { LineAnswered s.now at (tables parts.old plan.old waits.old texts.old state.old) (tables parts.new plan.new waits.new texts.new state.new) out.old out.new o result }
{
    let mut tags = [0u32; Given::CELLS];
    let mut numbers = [0i64; Given::CELLS];
    let mut bytes = [0u8; Given::BYTES];
    let l = script::line_at(s, at, &mut tags, &mut numbers, &mut bytes);
    let next = l.next;
    let from = room(out, o);
    let p = answer(
        l, s, &tags, &numbers, &bytes, parts, plan, waits, texts, state, out, from,
    );
    Answered { next, o: p }
}

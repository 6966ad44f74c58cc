// Runs a guideline with a person, who types a line and is told what came of it. The guideline comes on the file descriptor 3.
#![tactic(auto)]

mod answer;
mod assigned;
mod confirms;
mod cycle;
mod done;
mod giving;
mod help;
mod kinds;
mod past;
mod refusals;
mod session;
mod shown;
mod slips;
mod timing;
mod told_run;
mod triggers;

ghost use Rattle.std.specs.Prelude.{◌≤◌, length};

use limits::{Expressions, Guideline, Rows, Waits};
use spot::seen::Seen;
use std::io::Stdin;

const GUIDELINE: i32 = 3;

// Loads the text, and begins; or tells its refusal.
fn begin(stdin: &mut Stdin, text: &[u8], s: Seen) {
    if Guideline::LIMIT < s.total {
        told_refusal::too_long(text, s);
        return;
    }
    let mut rows = [0u32; Rows::CELLS];
    let mut parts = [0u32; Expressions::CELLS];
    let mut plan = [0u32; load::Plan::LEAST];
    let mut waits = [[false; Waits::SIDE]; Waits::SIDE];
    let mut texts = [0u8; load::Texts::LEAST];
    let mut state = [0u32; opening::State::LEAST];
    match load::load(
        text, &mut rows, &mut parts, &mut plan, &mut waits, &mut texts, &mut state,
    ) {
        load::Reply::Done => {
            session::talk(stdin, &rows, &parts, &mut texts, &plan, waits, &mut state);
        }
        load::Reply::Refused(number, place) => told_refusal::tell(text, number, place, s),
    }
}

fn begin_first(stdin: &mut Stdin, buffer: &[u8], n: usize, s: Seen)
    requires { n ≤ length buffer.now }
{
    begin(stdin, &buffer[..n], s);
}

fn main(rt: HostRuntime) {
    let mut stdin = rt.stdin();
    let mut kept = io::large_buffer();
    let t = told_refusal::take(GUIDELINE, &mut kept);
    let s = t.seen;
    begin_first(&mut stdin, &kept, t.kept, s);
}

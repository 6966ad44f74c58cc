// A script: whether it is one, and the answers to its calls.
ghost use Rattle.std.specs.Prelude.{◌≡◌, true, false};
ghost use Rattle.script.specs.Scripts.{is_script};
ghost use Rattle.replay.specs.Rows.{buffer};
ghost use Rattle.replay.specs.Calls.{tables};
ghost use Rattle.replay.specs.Scripts.{ScriptAnswered, Begun, Replayed};

use crate::calls::line;
use batch::STDERR_FILENO;
use digits::word;
use limits::{Expressions, WaitTable, Waits};
use script::is_script;
use transcript::buffer::flush;

// Answers the lines, one after the other.
fn lines(
    s: &[u8],
    parts: &mut [u32],
    plan: &mut [u32],
    waits: &mut WaitTable,
    texts: &mut [u8],
    state: &mut [u32],
    out: &mut [u8],
) -> usize
    ensures { ScriptAnswered s.now (tables parts.old plan.old waits.old texts.old state.old) (tables parts.new plan.new waits.new texts.new state.new) (buffer out.old 0) (buffer out.new result) }
{
    let mut at = 0usize;
    let mut o = 0usize;
    while at < s.len() {
        let a = line(s, at, parts, plan, waits, texts, state, out, o);
        if a.next <= at {
            return a.o;
        }
        at = a.next;
        o = a.o;
    }
    o
}

// The answers, from blank tables on.
fn answers(s: &[u8], out: &mut [u8]) -> usize
    ensures { Begun s.now (buffer out.old 0) (buffer out.new result) }
{
    let mut parts = [0u32; Expressions::CELLS];
    let mut plan = [0u32; load::Plan::LEAST];
    let mut waits = [[false; Waits::SIDE]; Waits::SIDE];
    let mut texts = [0u8; load::Texts::LEAST];
    let mut state = [0u32; opening::State::LEAST];
    lines(
        s, &mut parts, &mut plan, &mut waits, &mut texts, &mut state, out,
    )
}

// Says that there is none, and that no other is answered.
fn no_script() -> bool
    ensures { result ≡ false }
{
    io::write_all(STDERR_FILENO, b"replay: no script\n");
    false
}

// Whether this is a script: then it is answered.
pub fn replay(s: &[u8], out: &mut [u8]) -> bool
    ensures { (result ≡ is_script s.now) × (result ≡ true → Replayed s.now out.old out.new) × (result ≡ false → out.new ≡ out.old) }
{
    if is_script(s) {
        let o = answers(s, out);
        let p = word(b"--\n", out, o);
        flush(out, p);
        return true;
    }
    no_script()
}

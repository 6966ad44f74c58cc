// 8.3.2, 2: what one cycle asks for, from the tables alone.
#![tactic(auto)]

ghost use Rattle.std.specs.Prelude.{◌≡◌};
ghost use Rattle.asking.specs.Asks.{AskedFor};

use limits::WaitTable;
use state::{Header, Plan};

// The rows of the Changes table that the review of all tasks asks for, and how many. A value row holds the number of its assignment.
pub fn ask(x: &[u32], b: &[u8], f: &[u32], w: WaitTable, s: &[u32], out: &mut [u32]) -> usize
    ensures { AskedFor x.now b.now f.now w s.now out.old out.new result }
{
    let pre = truths::all_allowed(x, b, f, s, Plan::PRECONDITION);
    let wait = truths::all_allowed(x, b, f, s, Plan::WAIT_CONDITION);
    let ends = truths::all_ended(x, b, f, s, Plan::TERMINATE);
    review::review(s, f, w, pre, wait, ends, blocks::cell(s, Header::TIME), out)
}

// How a call answers: what it may reply, and what its contract says of the tables lent to it: see specs/.
#![tactic(auto)]

ghost use Rattle.std.specs.Prelude.{◌≡◌, ◌<◌};
ghost use Rattle.replying.specs.Ready.{ready_f, loaded_f};
ghost use Rattle.replying.specs.Trues.{put_true};

use limits::Tasks;
use state::{Header, Tag, Truth};

// The tag of a row that is true or false.
const TRUTH: u32 = Tag::TRUTH as u32;

// 01: "Other calls .. return place 0 and count 0": a refusal is its number alone.
#[derive(Drop)]
pub enum Reply {
    Done,
    Refused(u8),
}

// Whether a guideline is loaded.
pub fn loaded(s: &[u32]) -> bool
    ensures { result ≡ loaded_f s.now }
{
    blocks::cell(s, Header::LOADED) == 1
}

// Whether a guideline is loaded and the Exception flag is not set: else a call is refused with 7.
pub fn ready(s: &[u32]) -> bool
    ensures { result ≡ ready_f s.now }
{
    loaded(s) && blocks::cell(s, Header::FLAG) == 0
}

// Makes the row of the property `p` of the task `t` true.
pub fn make_true(s: &mut [u32], p: u16, t: usize)
    requires { t < 32 }
    ensures { s.new ≡ put_true s.old p t }
{
    let q = usize::from(p);
    blocks::put_cell(s, q + t, TRUTH);
    blocks::put_cell(s, q + Tasks::LIMIT + t, Truth::TRUE);
}

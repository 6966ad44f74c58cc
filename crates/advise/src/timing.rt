// The engine time: set, or moved on or back.
ghost use Rattle.std.specs.Prelude.{◌≡◌, ◌≤◌, get_or};
ghost use Rattle.advise.specs.CallsTold.{TimeSet, later_of, earlier_of};

use crate::refusals;
use limits::EngineTime;
use replying::Reply;
use sentences::write;
use state::Header;

// One beyond the limit stands for every time that is none.
const BEYOND: u64 = EngineTime::LIMIT + 1;

fn now(state: &[u32]) -> u64
    ensures { (result ≤ 4294967295) × (result ≡ get_or state.now 2 0) }
{
    u64::from(blocks::cell(state, Header::TIME))
}

// The time, as it is now.
fn tell(state: &[u32]) {
    write::text(b"The time is ");
    io::print_decimal(pieces::STDOUT_FILENO, now(state));
    write::text(b" seconds.\n");
}

// Sets the time, in seconds.
pub fn set(state: &mut [u32], time: u64)
    ensures { TimeSet time state.old state.new }
{
    match clock::set_time(state, time) {
        Reply::Done => tell(state),
        Reply::Refused(n) => {
            refusals::head(n);
            if n == 6 {
                write::text(b"the time lies between 0 and 4,294,967,295 seconds.\n");
                return;
            }
            refusals::other(n);
        }
    }
}

// Moves it on by so many seconds.
pub fn later(state: &mut [u32], seconds: u64)
    ensures { TimeSet (later_of (get_or state.old 2 0) seconds) state.old state.new }
{
    let t = if BEYOND < seconds {
        BEYOND
    } else {
        now(state) + seconds
    };
    set(state, t);
}

// Moves it back.
pub fn earlier(state: &mut [u32], seconds: u64)
    ensures { TimeSet (earlier_of (get_or state.old 2 0) seconds) state.old state.new }
{
    let t = now(state);
    set(state, if t < seconds { BEYOND } else { t - seconds });
}

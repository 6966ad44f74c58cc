// 8.3.3, SetEngineTime.
#![tactic(auto)]

ghost use Rattle.clock.specs.Time.{SetsTime};

use limits::Refusal;
use replying::Reply;
use state::Header;

// Sets the engine time: refused with 7, or with 6 where it is beyond the limit.
pub fn set_time(state: &mut [u32], time: u64) -> Reply
    ensures { SetsTime time state.old state.new result }
{
    if !replying::ready(state) {
        return Reply::Refused(Refusal::UNREADY);
    }
    if time > limits::EngineTime::LIMIT {
        return Reply::Refused(Refusal::LIMIT);
    }
    blocks::put_cell(state, Header::TIME, time as u32);
    Reply::Done
}

// What a caller gives: whether it is within the limits.
#![tactic(auto)]

ghost use Rattle.paper_calls.specs.Calls.{SmallText};
ghost use Rattle.parts.specs.Texts.{cells as cells_of};
ghost use Rattle.waits.specs.Booleans.{Tests};

use limits::Guideline;
use values::Handle;

// Whether the text of `n` bytes from `p` on is within the limits: its length, and no byte over 127.
pub fn small_text(b: &[u8], p: usize, n: usize) -> bool
    ensures { Tests result (SmallText (cells_of b.now p n)) }
{
    if n > Handle::TEXT_LIMIT {
        return false;
    }
    for k in 0..n {
        if parts::names::at(b, p, k) > Guideline::LAST_BYTE {
            return false;
        }
    }
    true
}

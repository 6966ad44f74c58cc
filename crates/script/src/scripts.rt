// Whether a text is a script: line behind line, to its end.
ghost use Rattle.std.specs.Prelude.{◌≡◌};
ghost use Rattle.script.specs.Places.{line_of};
ghost use Rattle.script.specs.Scripts.{is_script};

use crate::calls::line_at;
use crate::values::Given;

// The place behind the line that begins here.
fn behind_line(s: &[u8], at: usize) -> usize
    ensures { result ≡ (line_of s.now at).next }
{
    let mut tags = [0u32; Given::CELLS];
    let mut numbers = [0i64; Given::CELLS];
    let mut bytes = [0u8; Given::BYTES];
    line_at(s, at, &mut tags, &mut numbers, &mut bytes).next
}

// Whether every line is a call.
pub fn is_script(s: &[u8]) -> bool
    ensures { result ≡ is_script s.now }
{
    let mut at = 0usize;
    while at < s.len() {
        let next = behind_line(s, at);
        if next <= at {
            return false;
        }
        at = next;
    }
    at == s.len()
}

// Marks of tasks that their children raise.
#![tactic(auto)]

ghost use Rattle.std.specs.Prelude.{◌≡◌};
ghost use Rattle.marks.specs.Raise.{Raised};

use limits::{Marks, Tasks};

// Raises the mark of the parent if `v` holds, where `x` is the parent and one; 0 where there is none.
pub fn raise(m: &mut Marks, x: usize, v: bool)
    ensures { Raised m.old x v m.new }
{
    if v && (1..=Tasks::LIMIT).contains(&x) {
        m[x - 1] = true;
    }
}

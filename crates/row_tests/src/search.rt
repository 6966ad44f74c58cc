// Searches among the rows: for a component of a name, for an earlier attribute of the same owner, for the rows of one plan.
ghost use Rattle.std.specs.Prelude.{◌≡◌};
ghost use Rattle.row_tests.specs.Table.{component_named};
ghost use Rattle.row_tests.specs.Searched.{Some, Again, Nearest, Start, Finish};

use super::cells::{handle, kind};
use super::kinds::{is_head, parts};
use super::texts::same;
use guideline_rows::Kind;

// Whether the row `i` is a component with the name `h`.
fn is_named(rows: &[u32], bytes: &[u8], h: usize, i: usize) -> bool
    ensures { result ≡ component_named rows.now bytes.now h i }
{
    kind(rows, i) == Kind::COMPONENT && same(bytes, handle(rows, i), h)
}

// Whether a component among the rows `from` up to `to` has the name `h`.
pub fn named(rows: &[u32], bytes: &[u8], from: usize, to: usize, h: usize) -> bool
    ensures { Some (component_named rows.now bytes.now h) from to result }
{
    (from..to).any(|i| is_named(rows, bytes, h, i))
}

// Whether an earlier row of the same owner has the kind of the row `j`.
pub fn again(rows: &[u32], j: usize) -> bool
    ensures { Again rows.now j result }
{
    let k = kind(rows, j);
    for i in (0..j).rev() {
        let m = kind(rows, i);
        if m == k {
            return true;
        }
        if parts(k, m) {
            return false;
        }
    }
    false
}

// The last component before the row `j`; `j` if there is none.
pub fn owner(rows: &[u32], j: usize) -> usize
    ensures { Nearest rows.now j result }
{
    for i in (0..j).rev() {
        if kind(rows, i) == Kind::COMPONENT {
            return i;
        }
    }
    j
}

// The first of the rows before `j` with no head among them.
pub fn start(rows: &[u32], j: usize) -> usize
    ensures { Start rows.now j result }
{
    for i in (0..j).rev() {
        if is_head(kind(rows, i)) {
            return i + 1;
        }
    }
    0
}

// The next head behind the row `j`, or the end.
pub fn finish(rows: &[u32], n: usize, j: usize) -> usize
    ensures { Finish rows.now n j result }
{
    if n <= j {
        return n;
    }
    for i in j + 1..n {
        if is_head(kind(rows, i)) {
            return i;
        }
    }
    n
}

// Whether what is given is a value of a declared type: else it is refused with 9.
ghost use Rattle.std.specs.Prelude.{◌≡◌, true, ◌||◌, ◌&&◌, ℕ, ◌+◌, ◌-◌, ◌<◌, eqb};
ghost use Rattle.std.specs.Int.Signed.{non_neg};
ghost use Rattle.waits.specs.Booleans.{Tests};
ghost use Rattle.value_given.specs.Kinds.{one_kind, each_kind, kind_f, of_f, TypedBy};

use crate::cells::{is_natural, lent, number};
use numbers::Wide;
use parts::Declared;
use values::Tag;

// Of what type one value of the declared type `k` has to be: text, integer or real; where it is NONE, it has to be unknown.
fn of_one(k: u32) -> u32
    ensures { result ≡ one_kind k }
{
    match k {
        Declared::TEXT | Declared::BOOLEAN => Declared::TEXT,
        Declared::INTEGER => Declared::INTEGER,
        Declared::DATETIME | Declared::DATE | Declared::TIME | Declared::REAL => Declared::REAL,
        _ => Declared::NONE,
    }
}

// The same of each element of a list; NONE where the type is no set.
fn of_each(k: u32) -> u32
    ensures { result ≡ each_kind k }
{
    match k {
        Declared::SETOF_TEXT => Declared::TEXT,
        Declared::SETOF_INTEGER => Declared::INTEGER,
        Declared::SETOF_REAL => Declared::REAL,
        _ => Declared::NONE,
    }
}

// Whether an element with this tag and number is of the kind `e`: an integer counts as a real.
fn is_kind(e: u32, tag: u32, w: Wide) -> bool
    ensures { result ≡ kind_f e tag w.z }
{
    match tag {
        Tag::UNKNOWN => true,
        Tag::TRUTH => false,
        Tag::INTEGER => e == Declared::INTEGER || e == Declared::REAL,
        Tag::REAL => e == Declared::REAL,
        Tag::TEXT => e == Declared::TEXT && is_natural(w),
        _ => false,
    }
}

// Whether the cell `i` is lent, and its element of the kind `e`.
fn is_of(tags: &[u32], nums: &[i64], e: u32, i: usize) -> bool
    ensures { result ≡ of_f tags.now nums.now e i }
{
    lent(tags, nums, i) && is_kind(e, parts::word(tags, i), number(nums, i))
}

// Whether each element of a list of this shape is of the kind `e`.
fn all_of(tags: &[u32], nums: &[i64], e: u32, shape: u32) -> bool
    ensures { Tests result ((j : ℕ) → j < shape - 1 → of_f tags.now nums.now e (1 + j) ≡ true) }
{
    for i in 1..shape as usize {
        if !is_of(tags, nums, e, i) {
            return false;
        }
    }
    true
}

// Whether what is given is unknown or a value of the declared type with the number `k`.
pub fn typed(tags: &[u32], nums: &[i64], k: u32) -> bool
    ensures { TypedBy tags.now nums.now k result }
{
    let shape = parts::word(tags, 0);
    if shape == 0 {
        return is_of(tags, nums, of_one(k), 1);
    }
    let e = of_each(k);
    e != Declared::NONE && all_of(tags, nums, e, shape)
}

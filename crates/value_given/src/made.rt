// The value that is given, where there is one within the limits. Its texts stay where they are lent.
ghost use Rattle.std.specs.Prelude.{◌≡◌, ◌≤◌, get_or, pos};
ghost use Rattle.value_given.specs.Made.{scalar_f, at_f, ListMade, ValueMade};

use crate::cells::{is_one, natural, number};
use numbers::Wide;
use state::Values;
use values::{List, Scalar, Tag, Value};

// The element with this tag and number.
fn scalar(tag: u32, w: Wide) -> Scalar
    ensures { result ≡ scalar_f tag w.z }
{
    match tag {
        Tag::UNKNOWN => Scalar::Unknown,
        Tag::TRUTH => Scalar::Truth(is_one(w)),
        Tag::INTEGER => values::integer(w),
        Tag::REAL => values::real(w),
        Tag::TEXT => Scalar::Text(values::handle_of(natural(w))),
        _ => Scalar::Unknown,
    }
}

// The element in the cell `i`.
fn at(tags: &[u32], nums: &[i64], i: usize) -> Scalar
    ensures { result ≡ at_f tags.now nums.now i }
{
    scalar(parts::word(tags, i), number(nums, i))
}

// The list of this shape.
fn listed(tags: &[u32], nums: &[i64], shape: u32) -> List
    requires { shape ≤ 17 }
    ensures { ListMade tags.now nums.now shape result }
{
    let mut l = values::empty();
    for i in 1..shape as usize {
        l = values::push(l, at(tags, nums, i));
    }
    l
}

// The value that is given.
pub fn value(tags: &[u32], nums: &[i64]) -> Value
    ensures { ValueMade tags.now nums.now result }
{
    let shape = parts::word(tags, 0);
    if shape == 0 {
        return values::single(at(tags, nums, 1));
    }
    if Values::CELLS < shape as usize {
        return values::single(Scalar::Unknown);
    }
    values::many(listed(tags, nums, shape))
}

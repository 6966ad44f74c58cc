// Whether what is given is within the limits: else it is refused with 6.
ghost use Rattle.value_given.specs.Bounds.{TextBy, SmallBy, AllSmall, WithinBy};

use crate::cells::{natural, number};
use numbers::Wide;
use parts::HANDLE;
use state::Values;
use values::Tag;

fn small_text(bytes: &[u8], w: Wide) -> bool
    ensures { TextBy bytes.now w.z result }
{
    let h = natural(w);
    given::small_text(bytes, h / HANDLE, h % HANDLE)
}

// Whether an element with this tag and number is within the limits.
fn is_small(bytes: &[u8], tag: u32, w: Wide) -> bool
    ensures { SmallBy bytes.now tag w.z result }
{
    match tag {
        Tag::INTEGER => numbers::integer_fits(w),
        Tag::REAL => numbers::real_fits(w),
        Tag::TEXT => small_text(bytes, w),
        _ => true,
    }
}

// Whether each element of a list of this shape is.
fn all_small(tags: &[u32], nums: &[i64], bytes: &[u8], shape: u32) -> bool
    ensures { AllSmall tags.now nums.now bytes.now shape result }
{
    for i in 1..shape as usize {
        if !is_small(bytes, parts::word(tags, i), number(nums, i)) {
            return false;
        }
    }
    true
}

// Whether the value that is given is within the limits.
pub fn within(tags: &[u32], nums: &[i64], bytes: &[u8]) -> bool
    ensures { WithinBy tags.now nums.now bytes.now result }
{
    let shape = parts::word(tags, 0);
    if shape == 0 {
        return is_small(bytes, parts::word(tags, 1), number(nums, 1));
    }
    let most = Values::CELLS;
    shape as usize <= most && all_small(tags, nums, bytes, shape)
}

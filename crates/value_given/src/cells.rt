// One cell that is lent: a tag and a number.
ghost use Rattle.std.specs.Prelude.{◌≡◌, pos, get_or};
ghost use Rattle.value_given.specs.Given.{handle_given, lent_f, is_one};
ghost use Rattle.std.specs.Int.Signed.{non_neg};

use numbers::Wide;

// Whether the cell `i` is lent.
pub fn lent(tags: &[u32], nums: &[i64], i: usize) -> bool
    ensures { result ≡ lent_f tags.now nums.now i }
{
    i < tags.len() && i < nums.len()
}

// The number of a cell; 0 past the end.
pub fn number(nums: &[i64], i: usize) -> Wide
    ensures { result.z ≡ get_or nums.now i (pos 0) }
{
    match nums.get(i) {
        Some(z) => Wide { z: *z },
        None => Wide { z: 0 },
    }
}

// Whether a number is 1.
pub fn is_one(w: Wide) -> bool
    ensures { result ≡ is_one w.z }
{
    w.z == 1
}

// Whether a number is a handle.
pub fn is_natural(w: Wide) -> bool
    ensures { result ≡ non_neg w.z }
{
    w.z >= 0
}

// The handle that a number is; 0 for a negative one.
pub fn natural(w: Wide) -> usize
    ensures { result ≡ handle_given w.z }
{
    if w.z < 0 { 0 } else { w.z as usize }
}

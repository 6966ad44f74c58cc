// The values of the data items, from their columns: 17 cells an item, a tag and a number each.
// The tag of the first cell is the item's shape: 0 for one value, in the second cell, or one more than the length of a list, which follows.
ghost use Rattle.std.specs.Prelude.{◌≡◌, ◌≤◌};
ghost use Rattle.paper_expressions.specs.Limits.{list_limit};
ghost use Rattle.evaluator.specs.Columns.{scalar_at, cell_at, ElementsOf, ItemOf};

use super::operands;
use numbers::Wide;
use values::{List, Scalar, Value};

// The cells of an item: its shape, and one for each element that a list can have.
const CELLS: usize = List::LIST_LIMIT + 1;

// What a cell that is no shape holds; with any other tag it is unknown.
#[derive(Drop)]
struct Tag;

impl Tag {
    const TRUTH: usize = values::Tag::TRUTH as usize;

    const INTEGER: usize = values::Tag::INTEGER as usize;

    const REAL: usize = values::Tag::REAL as usize;

    const TEXT: usize = values::Tag::TEXT as usize;
}

// No item from here on is read.
const ITEMS: usize = 65_536;

// The value with that tag and the number `x`.
pub fn scalar(tag: usize, x: u32) -> Scalar
    ensures { result ≡ scalar_at tag x }
{
    match tag {
        Tag::TRUTH => Scalar::Truth(x == 1),
        Tag::INTEGER => values::integer(Wide {
            z: parts::literal(x),
        }),
        Tag::REAL => values::real(Wide {
            z: parts::literal(x),
        }),
        Tag::TEXT => Scalar::Text(values::handle_of(x as usize)),
        _ => Scalar::Unknown,
    }
}

fn cell(tags: &[u32], nums: &[u32], p: usize) -> Scalar
    ensures { result ≡ cell_at tags.now nums.now p }
{
    scalar(parts::number(tags, p), parts::word(nums, p))
}

// The list of the `n` cells from `p` on, made from the last to the first.
fn elements(tags: &[u32], nums: &[u32], p: usize, n: usize) -> List
    requires { (p ≤ 2000000) × (n ≤ list_limit) }
    ensures { ElementsOf tags.now nums.now p n result }
{
    let mut l = operands::blank(n);
    for k in (0..n).rev() {
        l = operands::put_at(l, k, cell(tags, nums, p + k));
    }
    l
}

// The value of the i-th data item.
pub fn value(tags: &[u32], nums: &[u32], i: usize) -> Value
    ensures { ItemOf tags.now nums.now i result }
{
    if ITEMS <= i {
        return values::single(Scalar::Unknown);
    }
    let p = CELLS * i;
    let shape = parts::number(tags, p);
    match shape {
        0 => values::single(cell(tags, nums, p + 1)),
        1..=CELLS => values::many(elements(tags, nums, p + 1, shape - 1)),
        _ => values::single(Scalar::Unknown),
    }
}

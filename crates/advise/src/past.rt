// Which limit a value passes that was refused with 6.
use crate::kinds::count;
use numbers::Num;
use pieces::STDOUT_FILENO;
use typed_value::Kind;
use values::List;

// The lowest integer, and the lowest real in thousandths.
const LOWEST_INTEGER: i64 = 0 - Num::INTEGER_LIMIT;

const LOWEST_REAL: i64 = 0 - Num::REAL_LIMIT;

// Whether a number lies beyond a limit, on either side.
fn is_beyond(n: i64, low: i64, high: i64) -> bool {
    !(low..=high).contains(&n)
}

// The i-th number.
fn number(numbers: &[i64], i: usize) -> i64 {
    numbers.get(i).copied().unwrap_or(0)
}

// Whether the element is a number beyond its limit.
fn is_past(tag: u32, n: i64) -> bool {
    match tag {
        Kind::INTEGER => is_beyond(n, LOWEST_INTEGER, Num::INTEGER_LIMIT),
        Kind::REAL => is_beyond(n, LOWEST_REAL, Num::REAL_LIMIT),
        _ => false,
    }
}

// The tag of the first of n elements that is a number beyond its limit.
fn first(tags: &[u32], numbers: &[i64], n: usize) -> u32 {
    for i in 0..n {
        let tag = blocks::cell(tags, 1 + i);
        if is_past(tag, number(numbers, 1 + i)) {
            return tag;
        }
    }
    Kind::UNKNOWN
}

// The place of a limit among the texts below: that of a number with this tag, or else of a text.
fn place_of(tag: u32) -> usize {
    match tag {
        Kind::INTEGER => 1,
        Kind::REAL => 2,
        _ => 3,
    }
}

// Which limit the value passes: if it is not its length and no number, it is a text.
fn limit(tags: &[u32], numbers: &[i64]) -> usize {
    let n = count(blocks::cell(tags, 0));
    if List::LIST_LIMIT < n {
        return 0;
    }
    place_of(first(tags, numbers, n))
}

// The limit that the value passes.
pub fn tell(tags: &[u32], numbers: &[i64]) {
    pieces::write(
        STDOUT_FILENO,
        b"a list has at most 16 elements.\n|integers lie within plus or minus 2,000,000.\n|reals lie within plus or minus 2,000,000.\n|a text has at most 48 bytes, in plain ASCII.\n",
        limit(tags, numbers),
    );
}

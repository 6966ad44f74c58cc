// Texts: handles into one lent slice of bytes, and their order with A to Z folded to a to z.
ghost use Rattle.std.specs.Prelude.{◌≡◌};
ghost use Rattle.paper_expressions.specs.Bytes.{folded};
ghost use Rattle.paper_expressions.specs.Limits.{text_limit};
ghost use Rattle.paper_expressions.proofs.Laws.Compare.{order_t};
ghost use Rattle.numbers.specs.Signs.{signed};
ghost use Rattle.values.specs.Meaning.{bytes_of, handle_of, levelb};

use numbers::Sign;
use parts::HANDLE;
use parts::names::letter;
use std::cmp::Ordering;

// Where a text stands among the lent bytes.
#[derive(Clone, Copy)]
pub struct Handle {
    pub at: usize,
    pub len: usize,
}

// A text by its handle.
pub fn handle_of(x: usize) -> Handle
    ensures { result ≡ handle_of x }
{
    Handle {
        at: x / HANDLE,
        len: x % HANDLE,
    }
}

impl Handle {
    // bytes of a text or name, between its quotes
    pub const TEXT_LIMIT: usize = 48;

    pub fn most_bytes() -> usize
        ensures { result ≡ text_limit }
    {
        Handle::TEXT_LIMIT
    }
}

// Byte by byte; a proper prefix is smaller.
pub fn text_order(bytes: &[u8], g: Handle, h: Handle) -> Sign
    ensures { result ≡ signed (order_t (folded (bytes_of bytes.now g)) (folded (bytes_of bytes.now h))) }
{
    for i in 0..g.len {
        if h.len <= i {
            return Sign::Greater;
        }
        match letter(bytes, g.at, i).cmp(&letter(bytes, h.at, i)) {
            Ordering::Greater => return Sign::Greater,
            Ordering::Less => return Sign::Less,
            Ordering::Equal => {}
        }
    }
    if g.len < h.len {
        Sign::Less
    } else {
        Sign::Equal
    }
}

// Whether comp is 0.
pub fn is_level(s: Sign) -> bool
    ensures { result ≡ levelb s }
{
    matches!(s, Sign::Equal)
}

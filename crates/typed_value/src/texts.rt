// Texts between double quotes. A quote behind a backslash does not close, and the backslash stays in the text.
ghost use Rattle.std.specs.Prelude.{◌≡◌, ◌+◌, ◌*◌, ◌≤◌, ◌<◌, pos};
ghost use Rattle.parts.specs.Texts.{cells};
ghost use Rattle.typed_value.specs.Onward.{Onward};
ghost use Rattle.typed_value.specs.Texts.{kept_of_fn};
ghost use Rattle.typed_value.specs.Elements.{text_from};
ghost use Rattle.typed_value.specs.Cells.{spread};
ghost use Rattle.typed_value.specs.Readings.{element_of, text_after};

use crate::elements::{Element, Kind, Room, found, wrong};
use crate::lexemes::{after, close};
use crate::steps::Slip;
use parts::{HANDLE, byte};

const QUOTE: u8 = b'"';

// As many bytes as a handle can tell: one that is longer stands for all that are beyond the limit.
pub fn kept(n: usize) -> usize
    ensures { (result ≤ 63) × (result ≡ kept_of_fn n) }
{
    n.min(Room::KEPT)
}

// The text of the i-th element: `n` bytes from here on, to its place among the bytes. The answer is its handle.
pub fn copy(s: &[u8], from: usize, n: usize, bytes: &mut [u8], i: usize) -> i64
    requires { i < 20 }
    ensures { (result ≡ pos (64 * i * 64 + kept_of_fn n)) × (bytes.new ≡ spread (cells s.now from (kept_of_fn n)) (64 * i) 64 bytes.old) }
{
    let k = kept(n);
    let place = Room::TEXT * i;
    blocks::copy_text(s, from, k, bytes, place, Room::TEXT);
    (place * HANDLE + k) as i64
}

// The text of the i-th element, behind its opening quote.
pub fn inside(s: &[u8], from: usize, bytes: &mut [u8], i: usize) -> Element
    requires { i < 20 }
    ensures { Onward s.now from result.place × (result ≡ element_of i (text_from s.now from)) × (bytes.new ≡ text_after i (text_from s.now from) bytes.old) }
{
    let p = close(s, from, QUOTE);
    if byte(s, p) != QUOTE {
        return wrong(from, Slip::Unclosed);
    }
    found(Kind::TEXT, copy(s, from, p - from, bytes, i), after(s, p))
}

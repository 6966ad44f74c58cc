// Names: two texts that are equal if case is ignored, and the data item that a text names.
// A text is given by its place in the bytes and its length; a byte past the end of the bytes is 0.
ghost use Rattle.std.specs.Prelude.{◌≡◌, ◌+◌, ◌<◌, MatchOption, get_or, length};
ghost use Rattle.paper_expressions.specs.Bytes.{fold};
ghost use Rattle.paper_expressions.proofs.Laws.Search.{alikeb};
ghost use Rattle.parts.specs.Texts.{cells};
ghost use Rattle.parts.specs.Items.{Found};

use super::{HANDLE, byte};

// A to Z as a to z.
pub fn lower(a: u8) -> u8
    ensures { result ≡ fold a }
{
    a.to_ascii_lowercase()
}

// The byte `i` of the text from `x` on.
pub fn at(bytes: &[u8], x: usize, i: usize) -> u8
    ensures { result ≡ get_or bytes.now (x + i) 0 }
{
    byte(bytes, x.saturating_add(i))
}

// The same, A to Z as a to z.
pub fn letter(bytes: &[u8], x: usize, i: usize) -> u8
    ensures { result ≡ fold (get_or bytes.now (x + i) 0) }
{
    lower(at(bytes, x, i))
}

// Whether the `n` bytes from `x` on and the `m` bytes from `y` on are equal if case is ignored.
pub fn alike(bytes: &[u8], x: usize, n: usize, y: usize, m: usize) -> bool
    ensures { result ≡ alikeb (cells bytes.now x n) (cells bytes.now y m) }
{
    if n != m {
        return false;
    }
    for i in 0..n {
        if letter(bytes, x, i) != letter(bytes, y, i) {
            return false;
        }
    }
    true
}

// The index of the data item whose name is alike to the text with the handle `h`, if there is one.
pub fn item(bytes: &[u8], names: &[u32], h: usize) -> Option<usize>
    ensures { MatchOption result (Found bytes.now names.now h (length names.now)) (λ i. (i < length names.now) × Found bytes.now names.now h i) }
{
    names.iter().position(|name| {
        let x = *name as usize;
        alike(bytes, x / HANDLE, x % HANDLE, h / HANDLE, h % HANDLE)
    })
}

// The same, or how many items there are.
pub fn find(bytes: &[u8], names: &[u32], h: usize) -> usize
    ensures { Found bytes.now names.now h result }
{
    item(bytes, names, h).unwrap_or(names.len())
}

// Blocks of cells and of bytes: written, copied, compared. What stands past the end of a slice reads as 0 and is not written.
#![tactic(auto)]

ghost use Rattle.std.specs.Prelude.{◌≡◌, ◌+◌, ◌≤◌, get_or, set};
ghost use Rattle.parts.specs.Texts.{cells as cells_of};
ghost use Rattle.blocks.specs.Blocks.{Copied, CopiedOf, Compares};

// The element; `none` past the end.
fn at<T: Copy>(s: &[T], i: usize, none: T) -> T
    ensures { result ≡ get_or s.now i none }
{
    s.get(i).copied().unwrap_or(none)
}

// A cell; 0 past the end.
pub fn cell(s: &[u32], i: usize) -> u32
    ensures { result ≡ get_or s.now i 0 }
{
    at(s, i, 0)
}

// Past the end nothing is written.
#[tactic(auto, using(std::proofs::lemmas::List::set_past))]
fn put<T: Copy>(s: &mut [T], i: usize, x: T)
    ensures { s.new ≡ set s.old i x }
{
    if i < s.len() {
        s[i] = x;
    }
}

pub fn put_cell(s: &mut [u32], i: usize, x: u32)
    ensures { s.new ≡ set s.old i x }
{
    put(s, i, x);
}

// `n` elements from `p` on to the elements from `q` on; `none` stands past the end.
fn copy<T: Copy>(from: &[T], p: usize, to: &mut [T], q: usize, n: usize, none: T)
    requires { (p + n ≤ 1000000) × (q + n ≤ 1000000) }
    ensures { CopiedOf none from.now p to.old q n to.new }
{
    for k in 0..n {
        put(to, q + k, at(from, p + k, none));
    }
}

// `n` cells from `p` on to the cells from `q` on.
pub fn copy_cells(from: &[u32], p: usize, to: &mut [u32], q: usize, n: usize)
    requires { (p + n ≤ 1000000) × (q + n ≤ 1000000) }
    ensures { Copied from.now p to.old q n to.new }
{
    copy(from, p, to, q, n, 0);
}

// The same of bytes.
pub fn copy_bytes(from: &[u8], p: usize, to: &mut [u8], q: usize, n: usize)
    requires { (p + n ≤ 1000000) × (q + n ≤ 1000000) }
    ensures { Copied from.now p to.old q n to.new }
{
    copy(from, p, to, q, n, 0);
}

// The byte `k` of the text of `n` bytes from `p` on; 0 past its end.
fn text_byte(from: &[u8], p: usize, n: usize, k: usize) -> u8
    ensures { result ≡ get_or (cells_of from.now p n) k 0 }
{
    if k < n {
        parts::names::at(from, p, k)
    } else {
        0
    }
}

// The text of `n` bytes from `p` on, and zeros after it, to the `room` bytes from `q` on.
pub fn copy_text(from: &[u8], p: usize, n: usize, to: &mut [u8], q: usize, room: usize)
    requires { q + room ≤ 1000000 }
    ensures { Copied (cells_of from.now p n) 0 to.old q room to.new }
{
    for k in 0..room {
        put(to, q + k, text_byte(from, p, n, k));
    }
}

// Whether the `n` cells from `p` on are those from `q` on.
pub fn same_cells(a: &[u32], p: usize, b: &[u32], q: usize, n: usize) -> bool
    requires { (p + n ≤ 1000000) × (q + n ≤ 1000000) }
    ensures { Compares a.now p b.now q n result }
{
    (0..n).all(|k| cell(a, p + k) == cell(b, q + k))
}

// The same of bytes.
pub fn same_bytes(a: &[u8], p: usize, b: &[u8], q: usize, n: usize) -> bool
    requires { (p + n ≤ 1000000) × (q + n ≤ 1000000) }
    ensures { Compares a.now p b.now q n result }
{
    (0..n).all(|k| parts::byte(a, p + k) == parts::byte(b, q + k))
}

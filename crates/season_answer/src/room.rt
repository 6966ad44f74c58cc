// The fields of a line.
ghost use Rattle.std.specs.Prelude.{◌≡◌, ◌≤◌, ◌<◌, ℕ, List, length, take};
ghost use Rattle.digits.specs.Appends.{Appends};
ghost use Rattle.season_answer.specs.Fields.{each as each_of, field_written, last_written, nothing_written, empty_written};

use digits::byte;
use separated::{put, quoted};

// The buffer: a line is written where at most a quarter of it is full, and the rest is room for the longest line. And the bytes that are kept of a
// line that is read.
#[derive(Drop)]
pub struct Size {}

impl Size {
    pub const BUFFER: usize = 262_144;

    pub const KEPT: usize = 16_384;
}

// A field, and the separator behind it.
pub fn field(f: &[u8], separator: u8, out: &mut [u8], o: usize) -> usize
    ensures { Appends out.old out.new o result (field_written separator f.now) }
{
    let p = put(f, separator, out, o);
    byte(separator, out, p)
}

// The first `k` bytes of a buffer, which has so many.
pub fn front(b: &[u8], k: usize) -> &[u8]
    ensures { k ≤ length b.now → result.now ≡ take k b.now }
{
    b.get(..k).unwrap_or(b)
}

// A field with nothing in it.
pub fn nothing(separator: u8, out: &mut [u8], o: usize) -> usize
    ensures { Appends out.old out.new o result (nothing_written separator) }
{
    byte(separator, out, o)
}

// A field that is an empty text: nothing between quotes.
pub fn empty_text(separator: u8, out: &mut [u8], o: usize) -> usize
    ensures { Appends out.old out.new o result (empty_written separator) }
{
    let p = quoted(b"", out, o);
    byte(separator, out, p)
}

// The last field of a line.
pub fn last(f: &[u8], separator: u8, out: &mut [u8], o: usize) -> usize
    ensures { Appends out.old out.new o result (last_written separator f.now) }
{
    let p = put(f, separator, out, o);
    byte(b'\n', out, p)
}

// What `one` appends for each number below `n`, one behind the other.
pub fn each<F: Fn(usize, &mut [u8], usize) -> usize>(
    n: usize,
    one: F,
    out: &mut [u8],
    o: usize,
) -> usize
    requires { (i : ℕ) (s : _) (p : _) → i < n → F.pre one i s p }
    ensures { (w : ℕ → List ℕ) → ((i : ℕ) (s : _) (p r : ℕ) (t : _) → i < n → F.post one i s p r t → Appends s.now t.now p r (w i)) → Appends out.old out.new o result (each_of w 0 n) }
{
    let mut p = o;
    for i in 0..n {
        p = one(i, out, p);
    }
    p
}

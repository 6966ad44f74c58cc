// The names and texts of an expression, gathered in the text bytes: a part table that the reader has filled leads into the
// guideline's own text, and afterwards holds the same expression over the text bytes.
#![tactic(auto)]

ghost use Rattle.std.specs.Prelude.{◌≡◌, length, ◌+◌, ◌≤◌};
ghost use Rattle.parts.specs.Texts.{cells as cells_of};
ghost use Rattle.pool.specs.Written.{Written};
ghost use Rattle.pool.specs.Pooled.{Gathers, nowhere as nowhereOf};
ghost use Rattle.pool.specs.Columns.{Rooms, Moves, texted};

use parts::{Code, HANDLE, Row, byte};

// No handle leads to this place or behind it.
pub const NOWHERE: usize = 67_108_864;

// Whether a part with the code `k` loads a text.
fn has_text(k: usize) -> bool
    ensures { result ≡ texted k }
{
    matches!(k, Code::ATOM | Code::STRING | Code::NO_SUCH)
}

// Whether `n` bytes from `o` on fit `long` bytes and a handle.
pub fn room(long: usize, o: usize, n: usize) -> bool
    ensures { Rooms long (o + n) result }
{
    o < NOWHERE && n < NOWHERE - o && o + n <= long
}

// Copies `n` bytes of the text to the bytes from `o` on.
pub fn copy(text: &[u8], place: usize, n: usize, bytes: &mut [u8], o: usize)
    requires { (o + n ≤ length bytes.old) × (place + n ≤ nowhereOf + 64) }
    ensures { Written bytes.old bytes.new o (cells_of text.now place n) }
{
    for j in 0..n {
        bytes[o + j] = byte(text, place + j);
    }
}

// Moves the text of the part `i`, if it has one, to the bytes from `o` on. Answers the place behind it, or NOWHERE if there is no room.
fn move_text(text: &[u8], cells: &mut [u32], i: usize, bytes: &mut [u8], o: usize) -> usize
    ensures { Moves text.now cells.old cells.new bytes.old bytes.new i o result }
{
    if cells.len() / Row::CELLS <= i || !has_text(parts::code(cells, i)) {
        return o;
    }
    let x = parts::load(cells, i) as usize;
    let n = x % HANDLE;
    if !room(bytes.len(), o, n) {
        return NOWHERE;
    }
    cells[i * Row::CELLS + Row::LOAD] = (o * HANDLE + n) as u32;
    copy(text, x / HANDLE, n, bytes, o);
    o + n
}

// Moves the texts of the parts from `from` up to `to` to the bytes from `o` on. Answers the place behind them, or one
// that no handle leads to, NOWHERE, if there is no room.
pub fn gather(
    text: &[u8],
    cells: &mut [u32],
    from: usize,
    to: usize,
    bytes: &mut [u8],
    o: usize,
) -> usize
    ensures { Gathers text.now cells.old cells.new bytes.old bytes.new from to o result }
{
    let mut p = o;
    for i in from..to {
        p = move_text(text, cells, i, bytes, p);
    }
    p
}

// Who waits for whom, as 1,024 bytes, row by row: what other languages lend. A byte that is 1 is a mark; past the end there is none.
// A mark is written as 1, and what is none as 0.
#![tactic(auto)]

ghost use Rattle.std.specs.Prelude.{◌≡◌, ◌≤◌};
ghost use Rattle.square.specs.Square.{row_of, square_of, Packed};

use limits::{Marks, WaitTable, Waits};

// The marks of one row, from the byte `p` on.
fn row(bytes: &[u8], p: usize) -> Marks
    requires { p ≤ 992 }
    ensures { result ≡ row_of bytes.now p }
{
    let mut r = [false; Waits::SIDE];
    for (j, mark) in r.iter_mut().enumerate() {
        *mark = parts::byte(bytes, p + j) == 1;
    }
    r
}

pub fn unpack(bytes: &[u8]) -> WaitTable
    ensures { result ≡ square_of bytes.now }
{
    let mut w = [[false; Waits::SIDE]; Waits::SIDE];
    for (i, marks) in w.iter_mut().enumerate() {
        *marks = row(bytes, Waits::SIDE * i);
    }
    w
}

pub fn pack(w: WaitTable) -> [u8; Waits::BYTES]
    ensures { Packed w result }
{
    let mut r = [0u8; Waits::BYTES];
    for (k, byte) in r.iter_mut().enumerate() {
        *byte = u8::from(w[k / Waits::SIDE][k % Waits::SIDE]);
    }
    r
}

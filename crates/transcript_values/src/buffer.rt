// A buffer before standard output: it is written when more than a quarter of it is full, and no line has as many bytes as the rest.
ghost use Rattle.std.specs.Prelude.{◌≡◌, length};
ghost use Rattle.digits.specs.Appends.{Appends};
ghost use Rattle.transcript_values.specs.Literals.{room_at, next_number};

use digits::{byte, number};

const STDOUT_FILENO: i32 = 1;

// Writes the first `o` bytes of the buffer.
pub fn flush(out: &[u8], o: usize) {
    if let Some(written) = out.get(..o) {
        io::write_all(STDOUT_FILENO, written);
    }
}

// Where the next line goes.
pub fn room(out: &[u8], o: usize) -> usize
    ensures { result ≡ room_at (length out.now) o }
{
    if o <= out.len() / 4 {
        o
    } else {
        flush(out, o);
        0
    }
}

// A number behind a blank.
pub fn next_number(n: usize, out: &mut [u8], o: usize) -> usize
    ensures { Appends out.old out.new o result (next_number n) }
{
    let p = byte(b' ', out, o);
    number(n, out, p)
}

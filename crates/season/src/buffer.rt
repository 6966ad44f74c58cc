// A buffer before standard output: it is written when more than a quarter of it is full, and no line has as many bytes as the rest.
ghost use Rattle.std.specs.Prelude.{◌≡◌, length};
ghost use Rattle.season.specs.Lines.{room_at};

const STDOUT_FILENO: i32 = 1;

// Writes the first `o` bytes of the buffer.
pub fn flush(out: &[u8], o: usize) {
    if let Some(full) = out.get(..o) {
        io::write_all(STDOUT_FILENO, full);
    }
}

// Where the next line goes.
pub fn room(out: &[u8], o: usize) -> usize
    ensures { result ≡ room_at (length out.now) o }
{
    if o <= out.len() / 4 {
        return o;
    }
    flush(out, o);
    0
}

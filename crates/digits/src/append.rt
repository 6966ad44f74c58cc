// Bytes appended to a lent buffer from a place on. A byte for which there is no room is left out.
ghost use Rattle.std.specs.Prelude.{[], ◌∷◌};
ghost use Rattle.digits.specs.Appends.{Appends};

// One byte.
pub fn byte(b: u8, out: &mut [u8], o: usize) -> usize
    ensures { Appends out.old out.new o result (b ∷ []) }
{
    if o < out.len() {
        out[o] = b;
        o + 1
    } else {
        o
    }
}

// Some bytes.
pub fn word(w: &[u8], out: &mut [u8], o: usize) -> usize
    ensures { Appends out.old out.new o result w.now }
{
    let mut p = o;
    for b in w {
        p = byte(*b, out, p);
    }
    p
}

// The line of a place.
ghost use Rattle.std.specs.Prelude.{◌≡◌, ◌==◌, ◌+◌, ◌≤◌, length, count_by};
ghost use Rattle.spot.specs.Lines.{newlines as newlines_before, Begins, Ends, Column};

// How many newlines there are.
fn newlines(text: &[u8]) -> usize
    ensures counted { result ≡ count_by (λ b. b == 10) text.now }
    ensures few { result ≤ length text.now }
{
    let mut n = 0;
    for b in text {
        if *b == b'\n' {
            n += 1;
        }
    }
    n
}

// Its number, counted from 1.
pub fn line(text: &[u8], place: usize) -> usize
    ensures { place ≤ length text.now → result ≡ newlines_before text.now place + 1 }
{
    newlines(&text[..place.min(text.len())]) + 1
}

// Where it begins.
pub fn begin(text: &[u8], place: usize) -> usize
    ensures { place ≤ length text.now → Begins text.now place result }
{
    if text.len() < place {
        return 0;
    }
    for i in (0..place).rev() {
        if text[i] == b'\n' {
            return i + 1;
        }
    }
    0
}

// Where it ends.
pub fn end(text: &[u8], place: usize) -> usize
    ensures { place ≤ length text.now → Ends text.now place result }
{
    for i in place..text.len() {
        if text[i] == b'\n' {
            return i;
        }
    }
    text.len()
}

// Its column: the place in the line, counted from 1.
pub fn column(text: &[u8], place: usize) -> usize
    ensures { place ≤ length text.now → Column text.now place result }
{
    if text.len() < place {
        return 0;
    }
    place - begin(text, place) + 1
}

// A quote at which the reader is stuck, which is never closed.
ghost use Rattle.std.specs.Prelude.{◌≡◌, ◌||◌, eqb};

// Whether a byte opens a name or a text in quotes.
pub fn is_quote(b: u8) -> bool
    ensures { result ≡ (eqb b 39 || eqb b 34) }
{
    matches!(b, b'\'' | b'"')
}

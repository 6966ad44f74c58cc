// What reading a row answers: whether there is one, and whether it is refused.
ghost use Rattle.std.specs.Prelude.{◌≡◌};
ghost use Rattle.replay.specs.Rows.{is_row, is_refused, refusal_of};

use row_shown::Shown;

// Whether there is a row.
pub fn is_row(s: Shown) -> bool
    ensures { result ≡ is_row s }
{
    !matches!(s, Shown::NoRow)
}

// Whether reading is refused, and the number of the refusal.
pub fn is_refused(s: Shown) -> bool
    ensures { result ≡ is_refused s }
{
    matches!(s, Shown::Refused(_))
}

pub fn refusal(s: Shown) -> u8
    ensures { result ≡ refusal_of s }
{
    match s {
        Shown::Refused(n) => n,
        _ => 0,
    }
}

// How a line is shown: no byte of it can do harm, and a long one is cut around the place.
ghost use Rattle.spot.specs.Show.{Shown, From, To};

// How many bytes of a line are shown before the place, and from it on.
const BEFORE: usize = 60;

const BEHIND: usize = 40;

// A printable byte is itself, a tab a blank, and any other a question mark.
pub fn shown(b: u8) -> u8
    ensures { Shown b result }
{
    match b {
        b'\t' => b' ',
        b' '..=b'~' => b,
        _ => b'?',
    }
}

// The first byte that is shown, where the line begins at `begin`.
pub fn from(begin: usize, place: usize) -> usize
    ensures { From begin place result }
{
    begin.max(place.saturating_sub(BEFORE))
}

// Where the bytes end that are shown, where the line ends at `end`.
pub fn to(place: usize, end: usize) -> usize
    ensures { To place end result }
{
    end.min(place.saturating_add(BEHIND))
}

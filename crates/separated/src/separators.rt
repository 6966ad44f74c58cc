// The separator of a sheet: a tab, if its first line has one outside quotes, else a comma.
ghost use Rattle.std.specs.Prelude.{◌≡◌, ◌≢◌, false, eqb, MatchOption};
ghost use Rattle.separated.specs.Records as records;

use crate::machine::Byte;

#[derive(Drop)]
pub struct Separator {}

impl Separator {
    pub const TAB: u8 = 9;

    pub const COMMA: u8 = 44;
}

// Whether what follows the byte `b` stands between quotes.
fn turned(b: u8, inside: bool) -> bool
    ensures { result ≡ records.turned (eqb b 34) inside }
{
    inside != (b == Byte::QUOTE)
}

// The separator that the byte `b` tells, if it tells one.
fn tells(b: u8, inside: bool) -> Option<u8>
    ensures { MatchOption result (records.told inside b ≡ 0) (λ s. (s ≡ records.told inside b) × (s ≢ 0)) }
{
    match b {
        Separator::TAB if !inside => Some(Separator::TAB),
        Byte::NEWLINE if !inside => Some(Separator::COMMA),
        _ => None,
    }
}

// The separator, by the first bytes of a sheet.
pub fn told_by(chunk: &[u8]) -> u8
    ensures { result ≡ records.told_from false chunk.now }
{
    let mut inside = false;
    for b in chunk {
        inside = turned(*b, inside);
        if let Some(separator) = tells(*b, inside) {
            return separator;
        }
    }
    Separator::COMMA
}

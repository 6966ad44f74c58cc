// One value, and the numbers that an operator may give.
ghost use Rattle.std.specs.Prelude.{◌≡◌};
ghost use Rattle.values.specs.Meaning.{integer_of, real_of_fn, unknownb};

use crate::text::Handle;
use numbers::{Num, Wide};

#[derive(Clone, Copy)]
pub enum Scalar {
    Unknown,
    Truth(bool),
    Int(Num),
    Real(Num),
    Text(Handle),
}

// What a cell that holds a scalar says that it is; the contracts of those that read and write such cells tie it.
#[derive(Drop)]
pub struct Tag {}

impl Tag {
    pub const UNKNOWN: u32 = 0;

    pub const TRUTH: u32 = 1;

    pub const INTEGER: u32 = 2;

    pub const REAL: u32 = 3;

    pub const TEXT: u32 = 4;
}

// The integer, or unknown beyond its limit.
pub fn integer(w: Wide) -> Scalar
    ensures { result ≡ integer_of w.z }
{
    if numbers::integer_fits(w) {
        Scalar::Int(w.narrow())
    } else {
        Scalar::Unknown
    }
}

// The real of so many thousandths, or unknown beyond its limit.
pub fn real(w: Wide) -> Scalar
    ensures { result ≡ real_of_fn w.z }
{
    if numbers::real_fits(w) {
        Scalar::Real(w.narrow())
    } else {
        Scalar::Unknown
    }
}

// Whether a scalar is unknown.
pub fn is_unknown(s: Scalar) -> bool
    ensures { result ≡ unknownb s }
{
    matches!(s, Scalar::Unknown)
}

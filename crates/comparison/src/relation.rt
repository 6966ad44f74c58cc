// The six comparisons (11.1.3), through comp and the table.
ghost use Rattle.std.specs.Prelude.{◌≡◌, [], ◌∷◌};
ghost use Rattle.paper_expressions.specs.Operators as paper;
ghost use Rattle.operators.specs.Means.{Means, relation};
ghost use Rattle.comparison.specs.Rows.{columns_c, row_c};

use numbers::Sign;
use operators::Comparison;
use values::{Scalar, Value};

// The table's columns: 1, -1, 0, unknown; and nothing where no clause of comp fits.
fn columns(up: bool, down: bool, level: bool, s: Sign) -> Scalar
    ensures { result ≡ columns_c up down level s }
{
    match s {
        Sign::Greater => Scalar::Truth(up),
        Sign::Less => Scalar::Truth(down),
        Sign::Equal => Scalar::Truth(level),
        Sign::Unknown => Scalar::Truth(false),
        Sign::Unfit => Scalar::Unknown,
    }
}

// The table's rows.
fn row(o: Comparison, s: Sign) -> Scalar
    ensures { result ≡ row_c o s }
{
    match o {
        Comparison::Greater => columns(true, false, false, s),
        Comparison::Less => columns(false, true, false, s),
        Comparison::GreaterOrEqual => columns(true, false, true, s),
        Comparison::LessOrEqual => columns(false, true, true, s),
        Comparison::Equal => columns(false, false, true, s),
        Comparison::NotEqual => columns(true, true, false, s),
    }
}

pub fn compare(bytes: &[u8], o: Comparison, a: Value, b: Value) -> Value
    ensures { Means bytes.now (paper.compare (relation o)) (a ∷ b ∷ []) result }
{
    values::single(row(o, crate::comparing::comp(bytes, a, b)))
}

// comp (11.1.3): of any two values.
ghost use Rattle.std.specs.Prelude.{◌≡◌};
ghost use Rattle.paper_expressions.proofs.Laws.Compare.{comp_f, comp_s, kind_s, comp_l};
ghost use Rattle.numbers.specs.Signs.{verdict};
ghost use Rattle.values.specs.Meaning.{meaning, meaning_l, meaning_v, goes_on_fn, end_of, size_of};

use numbers::{Sign, Wide};
use values::{List, Scalar, Value};

// Unknown beside anything is unknown; a number compares with a number, and a text with a text.
pub fn comp_scalars(bytes: &[u8], a: Scalar, b: Scalar) -> Sign
    ensures { result ≡ verdict (comp_s (kind_s (meaning bytes.now a)) (kind_s (meaning bytes.now b))) }
{
    match (a, b) {
        (Scalar::Unknown, _) | (_, Scalar::Unknown) => Sign::Unknown,
        (Scalar::Int(x), Scalar::Int(y)) => numbers::order(x.thousandths(), y.thousandths()),
        (Scalar::Int(x), Scalar::Real(y)) => numbers::order(x.thousandths(), Wide::from(y)),
        (Scalar::Real(x), Scalar::Int(y)) => numbers::order(Wide::from(x), y.thousandths()),
        (Scalar::Real(x), Scalar::Real(y)) => numbers::order(Wide::from(x), Wide::from(y)),
        (Scalar::Text(g), Scalar::Text(h)) => values::text_order(bytes, g, h),
        _ => Sign::Unfit,
    }
}

// Whether comp of two heads, being 0 or unknown, leaves it to the tails.
fn goes_on(s: Sign) -> bool
    ensures { result ≡ goes_on_fn s }
{
    matches!(s, Sign::Equal | Sign::Unknown)
}

fn comp_lists(bytes: &[u8], l: List, m: List) -> Sign
    ensures { result ≡ verdict (comp_l (meaning_l bytes.now l) (meaning_l bytes.now m)) }
{
    let n = values::size(l);
    let k = values::size(m);
    for i in 0..n {
        if k <= i {
            return Sign::Greater;
        }
        let s = comp_scalars(bytes, values::get(l, i), values::get(m, i));
        if !goes_on(s) {
            return s;
        }
    }
    if n < k { Sign::Less } else { Sign::Equal }
}

// A list beside a scalar: unknown, or `end` if the list is empty, or no clause.
fn comp_beside(l: List, b: Scalar, end: Sign) -> Sign
    ensures { result ≡ end_of (size_of l) b end }
{
    if values::is_unknown(b) {
        Sign::Unknown
    } else if values::size(l) == 0 {
        end
    } else {
        Sign::Unfit
    }
}

pub fn comp(bytes: &[u8], a: Value, b: Value) -> Sign
    ensures { result ≡ verdict (comp_f (meaning_v bytes.now a) (meaning_v bytes.now b)) }
{
    match (a.many, b.many) {
        (true, true) => comp_lists(bytes, a.list, b.list),
        (true, false) => comp_beside(a.list, b.one, Sign::Less),
        (false, true) => comp_beside(b.list, a.one, Sign::Greater),
        (false, false) => comp_scalars(bytes, a.one, b.one),
    }
}

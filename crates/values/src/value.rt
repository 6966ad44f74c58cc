// A value: one scalar, or a list.
ghost use Rattle.std.specs.Prelude.{◌≡◌, true, false};
ghost use Rattle.values.specs.Meaning.{scalar_of};

use crate::list;
use crate::list::List;
use crate::scalar::Scalar;

#[derive(Clone, Copy)]
pub struct Value {
    pub many: bool,
    pub one: Scalar,
    pub list: List,
}

pub fn single(s: Scalar) -> Value
    ensures { (result.many ≡ false) × (result.one ≡ s) }
{
    Value {
        many: false,
        one: s,
        list: list::empty(),
    }
}

pub fn many(l: List) -> Value
    ensures { (result.many ≡ true) × (result.list ≡ l) }
{
    Value {
        many: true,
        one: Scalar::Unknown,
        list: l,
    }
}

// The scalar, or unknown for a list.
pub fn scalar_of(v: Value) -> Scalar
    ensures { result ≡ scalar_of v }
{
    if v.many { Scalar::Unknown } else { v.one }
}

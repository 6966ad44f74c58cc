// The values of operands, gathered from the last to the first: the first three, and all of them as one list.
ghost use Rattle.std.specs.Prelude.{◌≡◌, ◌<◌, length};
ghost use Rattle.paper_expressions.specs.Limits.{list_limit};
ghost use Rattle.evaluator.specs.Lists.{Put};
ghost use Rattle.evaluator.specs.Operands.{NoneOf, PutOf};

use values::{Cell, List, Scalar, Value};

#[derive(Drop)]
pub struct Operands {
    pub first: Value,
    pub second: Value,
    pub third: Value,
    pub list: List,
}

// A list of `n`, of which none is put yet.
pub fn blank(n: usize) -> List
    ensures { (result.n ≡ n) × (length result.items ≡ list_limit) }
{
    List {
        n,
        ..values::empty()
    }
}

// The list with s in the k-th place, if there is one.
pub fn put_at(mut l: List, k: usize, s: Scalar) -> List
    ensures { k < list_limit → Put k s l result }
{
    if k < List::LIST_LIMIT {
        l.items[k] = Cell { s };
    }
    l
}

// No value yet, of `n` operands.
pub fn none(n: usize) -> Operands
    ensures { NoneOf n result }
{
    let u = values::single(Scalar::Unknown);
    Operands {
        first: u,
        second: u,
        third: u,
        list: blank(n),
    }
}

// The k-th operand's value, in front of those after it.
pub fn put(k: usize, v: Value, o: Operands) -> Operands
    ensures { PutOf k v o result }
{
    Operands {
        first: v,
        second: o.first,
        third: o.second,
        list: put_at(o.list, k, values::scalar_of(v)),
    }
}

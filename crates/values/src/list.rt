// A list of at most 16 scalars, by value.
ghost use Rattle.std.specs.Prelude.{◌≡◌, ◌<◌, ◌≤◌};
ghost use Rattle.paper_expressions.specs.Limits.{list_limit};
ghost use Rattle.values.specs.Meaning.{at, size_of, Stored, Pushed};

use crate::scalar::Scalar;

#[derive(Clone, Copy)]
pub struct Cell {
    pub s: Scalar,
}

// The first n of the items; the rest count for nothing.
#[derive(Clone, Copy)]
pub struct List {
    pub n: usize,
    pub items: [Cell; List::LIST_LIMIT],
}

impl List {
    // elements of a list
    pub const LIST_LIMIT: usize = 16;

    pub fn most_elements() -> usize
        ensures { result ≡ list_limit }
    {
        List::LIST_LIMIT
    }
}

pub fn empty() -> List
    ensures { result.n ≡ 0 }
{
    List {
        n: 0,
        items: [Cell { s: Scalar::Unknown }; List::LIST_LIMIT],
    }
}

pub fn size(l: List) -> usize
    ensures { (result ≡ size_of l) × (result ≤ list_limit) × (result ≤ l.n) }
{
    l.n.min(List::LIST_LIMIT)
}

pub fn get(l: List, i: usize) -> Scalar
    requires { i < list_limit }
    ensures { result ≡ at l.items i }
{
    l.items[i].s
}

// The list with s in the place of its i-th.
pub fn put(mut l: List, i: usize, s: Scalar) -> List
    requires { i < list_limit }
    ensures { Stored l i s result }
{
    l.items[i] = Cell { s };
    l
}

// The list with s after its last.
pub fn push(mut l: List, s: Scalar) -> List
    requires { l.n < list_limit }
    ensures { Pushed l s result }
{
    l.items[l.n] = Cell { s };
    l.n += 1;
    l
}

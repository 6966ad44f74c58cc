// A list, by the words of a notation: what opens it, what stands between its elements, and what closes it.
ghost use Rattle.std.specs.Prelude.{List, ℕ, ◌<◌, ◌++◌, drop};
ghost use Rattle.paper_expressions.specs.Limits.{list_limit};
ghost use Rattle.paper_expressions.specs.Values as paper;
ghost use Rattle.values.specs.Meaning.{meaning, meaning_l, meaning_v, at};
ghost use Rattle.digits.specs.Appends.{Appends};
ghost use Rattle.written.specs.Joined.{more_joined, list_joined, value_joined};

use values::{List as Elements, Scalar, Value};

// A way to write values: each function appends what its ghost member says.
pub trait Notation {
    ghost opening: { List ℕ };

    ghost between: { List ℕ };

    ghost closing: { List ℕ };

    ghost spelt: { paper.Scalar → List ℕ };

    fn open(out: &mut [u8], o: usize) -> usize
        ensures { Appends out.old out.new o result opening };

    fn part(out: &mut [u8], o: usize) -> usize
        ensures { Appends out.old out.new o result between };

    fn close(out: &mut [u8], o: usize) -> usize
        ensures { Appends out.old out.new o result closing };

    fn scalar(bytes: &[u8], s: Scalar, out: &mut [u8], o: usize) -> usize
        ensures { Appends out.old out.new o result (spelt (meaning bytes.now s)) };
}

// What stands between elements, and the i-th element.
fn element<N: Notation>(bytes: &[u8], l: Elements, i: usize, out: &mut [u8], o: usize) -> usize
    requires { i < list_limit }
    ensures { Appends out.old out.new o result (N.between ++ N.spelt (meaning bytes.now (at l.items i))) }
{
    let p = N::part(out, o);
    N::scalar(bytes, values::get(l, i), out, p)
}

// The elements behind the first, and what closes the list.
fn more<N: Notation>(bytes: &[u8], l: Elements, out: &mut [u8], o: usize) -> usize
    ensures { Appends out.old out.new o result (more_joined N.between N.closing N.spelt (drop 1 (meaning_l bytes.now l))) }
{
    let mut p = o;
    for i in 1..values::size(l) {
        p = element::<N>(bytes, l, i, out, p);
    }
    N::close(out, p)
}

// A whole list.
fn list<N: Notation>(bytes: &[u8], l: Elements, out: &mut [u8], o: usize) -> usize
    ensures { Appends out.old out.new o result (list_joined N.opening N.between N.closing N.spelt (meaning_l bytes.now l)) }
{
    let p = N::open(out, o);
    if values::size(l) == 0 {
        return N::close(out, p);
    }
    let q = N::scalar(bytes, values::get(l, 0), out, p);
    more::<N>(bytes, l, out, q)
}

// A value: a list, or one scalar.
pub fn value_in<N: Notation>(bytes: &[u8], v: Value, out: &mut [u8], o: usize) -> usize
    ensures { Appends out.old out.new o result (value_joined N.opening N.between N.closing N.spelt (meaning_v bytes.now v)) }
{
    if v.many {
        list::<N>(bytes, v.list, out, o)
    } else {
        N::scalar(bytes, v.one, out, o)
    }
}

// The rows of the tasks, and of the data items, as lists of their numbers; and searches of their names.
ghost use Rattle.std.specs.Prelude.{◌≡◌, ◌+◌, ◌≤◌, ◌<◌, length};
ghost use Rattle.paper_expressions.proofs.Laws.Search.{alikeb};
ghost use Rattle.parts.specs.Texts.{text_at_fn};
ghost use Rattle.row_tests.specs.Searched.{Some};
ghost use Rattle.name_tests.specs.Lists.{chosen, matched, listed_at, Puts, Gathers};

use guideline_rows::Kind;
use parts::names::alike;
use parts::{HANDLE, number};
use row_tests::cells::{handle, kind};
use row_tests::kinds::is_task;
use row_tests::texts::same;

fn wanted(tasks: bool, k: usize) -> bool
    ensures { result ≡ chosen tasks k }
{
    if tasks { is_task(k) } else { k == Kind::DATA }
}

// The row `i` behind the `m` that were found, if it is wanted: how many there are then.
fn put(rows: &[u32], tasks: bool, list: &mut [u32], m: usize, i: usize) -> usize
    requires { (m ≤ i) × (i < 65536) }
    ensures { Puts tasks rows.now list.old list.new m i result }
{
    if !wanted(tasks, kind(rows, i)) {
        return m;
    }
    if m < list.len() {
        list[m] = i as u32;
        return m + 1;
    }
    m + 1
}

// The numbers of the rows of tasks, or of data items, as far as there is room; answers how many there are.
pub fn gather(rows: &[u32], n: usize, tasks: bool, list: &mut [u32]) -> usize
    requires { n ≤ 65536 }
    ensures { Gathers tasks rows.now n list.old list.new result }
{
    let mut m = 0;
    for i in 0..n {
        m = put(rows, tasks, list, m, i);
    }
    m
}

// Whether two texts, given by their handles, are equal if case is ignored.
fn folds(bytes: &[u8], g: usize, h: usize) -> bool
    ensures { result ≡ alikeb (text_at_fn bytes.now g) (text_at_fn bytes.now h) }
{
    alike(bytes, g / HANDLE, g % HANDLE, h / HANDLE, h % HANDLE)
}

// Whether two texts are equal, or equal if case is ignored.
pub fn matches(bytes: &[u8], folded: bool, g: usize, h: usize) -> bool
    ensures { result ≡ matched bytes.now folded g h }
{
    if folded {
        folds(bytes, g, h)
    } else {
        same(bytes, g, h)
    }
}

// Whether the k-th of the list is a row before `to` whose name matches.
fn is_listed(
    rows: &[u32],
    bytes: &[u8],
    list: &[u32],
    to: usize,
    folded: bool,
    h: usize,
    k: usize,
) -> bool
    ensures { result ≡ listed_at rows.now bytes.now list.now to folded h k }
{
    let i = number(list, k);
    i < to && matches(bytes, folded, handle(rows, i), h)
}

// Whether one of the first `m` of the list is a row before `to` whose name matches.
pub fn listed(
    rows: &[u32],
    bytes: &[u8],
    list: &[u32],
    m: usize,
    to: usize,
    folded: bool,
    h: usize,
) -> bool
    ensures { Some (listed_at rows.now bytes.now list.now to folded h) 0 m result }
{
    (0..m).any(|k| is_listed(rows, bytes, list, to, folded, h, k))
}

// The first row that passes a test: of a place, of a name, of an attribute.
ghost use Rattle.std.specs.Prelude.{◌≡◌};
ghost use Rattle.explain_rows.specs.Firsts.{sort_kind, named-at, spot_at, begins_at, FirstOf, BeforeOf};

use name_tests::lists::matches;
use names::flaws::spot;
use row_tests::cells::{begin, end, handle, kind};
use row_tests::kinds::{is_task, parts};
use terminals::Terminal;

const DATA: usize = Terminal::DATA as usize;

const COMPONENT: usize = Terminal::COMPONENT as usize;

// What a name stands for.
#[derive(Clone, Copy)]
pub enum Sort {
    Task,
    Item,
    Component,
}

impl Sort {
    // Whether a row of the kind `k` gives such a name.
    pub fn is_kind(self, k: usize) -> bool
        ensures { result ≡ sort_kind self k }
    {
        match self {
            Sort::Task => is_task(k),
            Sort::Item => k == DATA,
            Sort::Component => k == COMPONENT,
        }
    }

    // What has such a name.
    pub fn words(self) -> &'static [u8] {
        match self {
            Sort::Task => b"task",
            Sort::Item => b"data item",
            Sort::Component => b"component",
        }
    }
}

// Whether the row `i` gives such a name, and it is that of the handle `h`: byte by byte, or with case ignored.
fn is_named(rows: &[u32], bytes: &[u8], sort: Sort, folded: bool, h: usize, i: usize) -> bool
    ensures { result ≡ named-at rows.now bytes.now sort folded h i }
{
    sort.is_kind(kind(rows, i)) && matches(bytes, folded, handle(rows, i), h)
}

// The first such row before `to`.
pub fn named(
    rows: &[u32],
    bytes: &[u8],
    sort: Sort,
    folded: bool,
    h: usize,
    to: usize,
) -> Option<usize>
    ensures { FirstOf (named-at rows.now bytes.now sort folded h) to result }
{
    (0..to).find(|i| is_named(rows, bytes, sort, folded, h, *i))
}

// The first of `n` rows whose flaw would be told at the place.
pub fn told_at(rows: &[u32], n: usize, place: usize) -> Option<usize>
    ensures { FirstOf (spot_at rows.now place) n result }
{
    (0..n).find(|i| spot(rows, *i) == place)
}

// Whether the row `i` has an expression that begins at the place.
fn begins(rows: &[u32], place: usize, i: usize) -> bool
    ensures { result ≡ begins_at rows.now place i }
{
    end(rows, i) != 0 && begin(rows, i) == place
}

// The first of `n` rows with such an expression.
pub fn begun_at(rows: &[u32], n: usize, place: usize) -> Option<usize>
    ensures { FirstOf (begins_at rows.now place) n result }
{
    (0..n).find(|i| begins(rows, place, *i))
}

// The row of the same owner's last attribute before `j` that has the kind of `j`.
pub fn before(rows: &[u32], j: usize) -> Option<usize>
    ensures { BeforeOf rows.now j result }
{
    let k = kind(rows, j);
    for i in (0..j).rev() {
        let m = kind(rows, i);
        if m == k {
            return Some(i);
        }
        if parts(k, m) {
            return None;
        }
    }
    None
}

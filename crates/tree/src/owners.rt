// Where a task, a data item or a source stands in the row table, and its caption.
ghost use Rattle.std.specs.Prelude.{◌≡◌, ◌<◌, MatchOption};
ghost use Rattle.row_tests.specs.Table.{kind_of};
ghost use Rattle.tree.specs.Owned.{begins_kind, passed_kind, Numbered, Captioned};

use guideline_rows::{Kind, Row};
use limits::Rows;
use row_tests::cells::kind;
use row_tests::kinds::is_task;

// The most rows of the row table.
const ROWS: usize = Rows::CELLS / Row::CELLS;

// What may have a caption.
#[derive(Clone, Copy, PartialEq, Eq)]
pub enum Owner {
    Task,
    Item,
    Source,
}

// Whether a row of the kind `k` begins such an owner.
fn begins(o: Owner, k: usize) -> bool
    ensures { result ≡ begins_kind o k }
{
    match o {
        Owner::Task => is_task(k),
        Owner::Item => k == Kind::DATA,
        Owner::Source => k == Kind::SOURCE,
    }
}

// The row of the owner that has the number `n` among its kind, if there is one.
pub fn row(rows: &[u32], o: Owner, n: usize) -> Option<usize>
    ensures { MatchOption result (Numbered (begins_kind o) (kind_of rows.now) n 1365 1365) (λ r. (r < 1365) × Numbered (begins_kind o) (kind_of rows.now) n 1365 r) }
{
    let mut seen = 0;
    for i in 0..ROWS {
        let counts = begins(o, kind(rows, i));
        if counts && seen == n {
            return Some(i);
        }
        seen += usize::from(counts);
    }
    None
}

// What may stand between an owner's row and its caption.
fn is_passed(k: usize) -> bool
    ensures { result ≡ passed_kind k }
{
    matches!(k, Kind::DESCRIPTION | Kind::MANDATORY)
}

// The row of the caption of the owner in the row `j`, if it has one: a caption stands behind its owner, with descriptions and mandatory between.
pub fn caption(rows: &[u32], j: usize) -> Option<usize>
    ensures { MatchOption result (Captioned (kind_of rows.now) j 1365 1365) (λ r. (r < 1365) × Captioned (kind_of rows.now) j 1365 r) }
{
    for i in j..ROWS - 1 {
        let k = kind(rows, i + 1);
        if k == Kind::CAPTION {
            return Some(i + 1);
        }
        if !is_passed(k) {
            return None;
        }
    }
    None
}

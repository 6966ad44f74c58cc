// The rows whose expression has no type that fits its role.
ghost use Rattle.std.specs.Prelude.{◌≡◌};
ghost use Rattle.parts.specs.Part.{table};
ghost use Rattle.types.specs.Roles.{wording_kind, role_of};
ghost use Rattle.types.specs.Judged.{Unfits, Judges, AllMisfits};

use guideline_rows::Kind;
use limits::Expression;
use row_tests::cells::{begin, end, handle, kind};
use row_tests::least::nearer;
use typer::fits;
use typer::fitting::Role;

const ROOT: usize = 0;

// A caption or description.
fn is_wording(k: usize) -> bool
    ensures { result ≡ wording_kind k }
{
    matches!(k, Kind::CAPTION | Kind::DESCRIPTION)
}

// What the expression of the row is written for: an assignment, a caption or description, or a condition.
fn role(rows: &[u32], j: usize) -> Role
    ensures { result ≡ role_of rows.now j }
{
    let k = kind(rows, j);
    if k == Kind::EQUALS {
        Role::Assigned(handle(rows, j))
    } else if is_wording(k) {
        Role::Wording
    } else {
        Role::Condition
    }
}

// Whether the row `j` has an expression that doesn't fit. Types don't depend on the task: the root stands for all.
fn unfit(rows: &[u32], cells: &[u32], bytes: &[u8], names: &[u32], types: &[u8], j: usize) -> bool
    ensures { Unfits rows.now (table cells.now bytes.now) names.now types.now j result }
{
    let e = end(rows, j);
    if e == 0 {
        return false;
    }
    let asked = role(rows, j);
    !fits(
        cells,
        bytes,
        names,
        types,
        ROOT,
        e,
        Expression::DEPTH,
        asked,
    )
}

// One row more.
fn judge(
    rows: &[u32],
    cells: &[u32],
    bytes: &[u8],
    names: &[u32],
    types: &[u8],
    j: usize,
    best: Option<usize>,
) -> Option<usize>
    ensures { Judges rows.now (table cells.now bytes.now) names.now types.now j best result }
{
    if unfit(rows, cells, bytes, names, types, j) {
        nearer(best, begin(rows, j))
    } else {
        best
    }
}

// The smallest place at which an expression of the first `n` rows begins that doesn't fit.
pub fn misfits(
    rows: &[u32],
    n: usize,
    cells: &[u32],
    bytes: &[u8],
    names: &[u32],
    types: &[u8],
) -> Option<usize>
    ensures { AllMisfits rows.now (table cells.now bytes.now) names.now types.now n result }
{
    let mut best = None;
    for j in 0..n {
        best = judge(rows, cells, bytes, names, types, j, best);
    }
    best
}

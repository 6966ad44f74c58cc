// The flaws of single rows: a name or an attribute that stands again; a component, constraint, source or target that names nothing it may.
ghost use Rattle.std.specs.Prelude.{◌≡◌, List, ℕ};
ghost use Rattle.name_tests.specs.Flaws.{Component, Constraint, Unnamed, Attribute, Flawed};

use super::lists::listed;
use guideline_rows::Kind;
use row_tests::cells::{handle, kind};
use row_tests::kinds::{is_task, once};
use row_tests::search::{again, finish, named, owner, start};
use row_tests::texts::same;

// A component that names the root, or what an earlier one names, or no task.
fn component(rows: &[u32], n: usize, bytes: &[u8], tasks: &[u32], m: usize, j: usize) -> bool
    ensures { Component rows.now n bytes.now tasks.now m j result }
{
    let h = handle(rows, j);
    if same(bytes, handle(rows, 0), h) {
        return true;
    }
    if named(rows, bytes, 0, j, h) {
        return true;
    }
    !listed(rows, bytes, tasks, m, n, false, h)
}

// Whether no component of the plan around the row `j` has the name `h`.
fn unnamed(rows: &[u32], n: usize, bytes: &[u8], j: usize, h: usize) -> bool
    ensures { Unnamed rows.now n bytes.now j h result }
{
    let a = start(rows, j);
    let z = finish(rows, n, j);
    !named(rows, bytes, a, z, h)
}

// A schedule constraint on its own component, or on none of its plan.
fn constraint(rows: &[u32], n: usize, bytes: &[u8], j: usize) -> bool
    ensures { Constraint rows.now n bytes.now j result }
{
    let h = handle(rows, j);
    let c = owner(rows, j);
    if j <= c {
        return unnamed(rows, n, bytes, j, h);
    }
    if same(bytes, handle(rows, c), h) {
        return true;
    }
    unnamed(rows, n, bytes, j, h)
}

// An attribute that stands again, of those that stand once.
fn attribute(rows: &[u32], j: usize) -> bool
    ensures { (n : ℕ) (b : List ℕ) → Attribute rows.now n b j result }
{
    if once(kind(rows, j)) {
        return again(rows, j);
    }
    false
}

// Whether the row `j` has a flaw.
pub fn flawed(
    rows: &[u32],
    n: usize,
    bytes: &[u8],
    tasks: &[u32],
    m: usize,
    items: &[u32],
    d: usize,
    j: usize,
) -> bool
    ensures { Flawed rows.now n bytes.now tasks.now m items.now d j result }
{
    let k = kind(rows, j);
    let h = handle(rows, j);
    if is_task(k) {
        return listed(rows, bytes, tasks, m, j, true, h);
    }
    match k {
        Kind::DATA => listed(rows, bytes, items, d, j, true, h),
        Kind::COMPONENT => component(rows, n, bytes, tasks, m, j),
        Kind::SCHEDULE_CONSTRAINT => constraint(rows, n, bytes, j),
        Kind::SOURCE => !listed(rows, bytes, items, d, n, false, h),
        Kind::EQUALS => !listed(rows, bytes, items, d, n, true, h),
        _ => attribute(rows, j),
    }
}

// What an expression is wanted for, and the first of its parts that has no type.
ghost use Rattle.std.specs.Prelude.{◌≡◌};
ghost use Rattle.paper_guideline.specs.Limits.{depth_limit};
ghost use Rattle.parts.specs.Part.{table};
ghost use Rattle.typer.specs.Typed.{Typed};
ghost use Rattle.explain_rows.specs.Types.{Wants, root, backs, UntypedOf};

use super::firsts::{Sort, named};
use limits::Expression;
use parts::back;
use row_tests::cells::{handle, kind};
use terminals::Terminal;
use typer::type_of;

const CAPTION: usize = Terminal::CAPTION as usize;

const DESCRIPTION: usize = Terminal::DESCRIPTION as usize;

const TARGET: usize = Terminal::EQUALS as usize;
// Types don't depend on the task: the root stands for all.
const ROOT: usize = 0;

// A truth value for a condition, a text for a caption or description, and what the data item of this row takes.
// stays: promise of `Wants`, which gives the number of rows where no data item is alike
#[derive(Drop)]
pub enum Wanted {
    Truth,
    Text,
    Item(usize),
}

// What the expression of the row `j` of `n` is wanted for.
pub fn asked(rows: &[u32], n: usize, bytes: &[u8], j: usize) -> Wanted
    ensures { Wants rows.now n bytes.now j result }
{
    match kind(rows, j) {
        TARGET => Wanted::Item(named(rows, bytes, Sort::Item, true, handle(rows, j), n).unwrap_or(
            n,
        )),
        CAPTION | DESCRIPTION => Wanted::Text,
        _ => Wanted::Truth,
    }
}

// The type of the expression that ends at `end`, by its letter; 0 if it has none.
// stays: promise of `type_of`, whose letter this is
pub fn letter(cells: &[u32], bytes: &[u8], names: &[u32], types: &[u8], end: usize) -> u8
    ensures { Typed (table cells.now bytes.now) names.now types.now root end depth_limit result }
{
    type_of(cells, bytes, names, types, ROOT, end, Expression::DEPTH)
}

// The first of the parts `from` up to `to` that has no type. All before it have one, so all its operands.
pub fn untyped(
    cells: &[u32],
    bytes: &[u8],
    names: &[u32],
    types: &[u8],
    from: usize,
    to: usize,
) -> Option<usize>
    ensures { UntypedOf (table cells.now bytes.now) names.now types.now from to result }
{
    for p in from..to {
        if letter(cells, bytes, names, types, p + 1) == 0 {
            return Some(p);
        }
    }
    None
}

// Where the operand of the part `p` ends behind which there are `k` others.
pub fn operand(cells: &[u32], p: usize, k: usize) -> usize
    ensures { result ≡ backs cells.now p k }
{
    let mut q = p;
    for _ in 0..k {
        q = back(cells, q);
    }
    q
}

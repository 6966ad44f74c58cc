// The typer: the type of the expression that the part table holds up to a place, by section 4, or no type.
// A type is a letter: T text, I integer, R real, B truth value, and t, i, r, a for sets of text, integer, real, anything.
// 0 is no type. Nothing is asked of the tables: on any contents the typer ends and does nothing undefined.
#![tactic(auto)]

pub mod fitting;
mod leaves;
mod lists;

ghost use Rattle.std.specs.Prelude.{◌≡◌, ◌<◌};
ghost use Rattle.parts.specs.Part.{table};
ghost use Rattle.typer.specs.Compound.{compound_of};
ghost use Rattle.typer.specs.Typed.{Typed, Gathered};
ghost use Rattle.typer.specs.Fitting.{Fits};

use fitting::Role;
use lists::Summary;
use parts::{Code, Family};

// No operator takes more operands.
const OPERANDS: usize = 3;

// A list or an application, from its operands; none if some operand has no type.
fn compound(kind: usize, n: usize, operands: Option<Summary>) -> u8
    ensures { result ≡ compound_of kind n operands }
{
    match operands {
        None => 0,
        Some(s) if kind == Code::LIST => s.list,
        Some(_) if OPERANDS < n => 0,
        Some(s) => resolution::apply(kind / Family::SIZE, s.first, s.second, s.third),
    }
}

// The types of the `n` operands that end at `p`, from the last to the first, if each has one.
#[cycle(operands_type_of)]
fn operands(
    cells: &[u32],
    bytes: &[u8],
    names: &[u32],
    types: &[u8],
    task: usize,
    p: usize,
    n: usize,
    depth: usize,
) -> Option<Summary>
    requires { 0 < depth }
    ensures { Gathered (table cells.now bytes.now) names.now types.now task p n depth result }
{
    let mut s = Summary::start();
    let mut q = p;
    for _ in 0..n {
        let t = type_of(cells, bytes, names, types, task, q, depth - 1);
        if t == 0 {
            return None;
        }
        s = s.push(t);
        q = parts::back(cells, q);
    }
    Some(s)
}

// The type of the expression of a task whose parts end before `end`, if it is at most `depth` deep.
#[cycle(operands_type_of)]
pub fn type_of(
    cells: &[u32],
    bytes: &[u8],
    names: &[u32],
    types: &[u8],
    task: usize,
    end: usize,
    depth: usize,
) -> u8
    ensures { Typed (table cells.now bytes.now) names.now types.now task end depth result }
{
    if end == 0 || depth == 0 {
        return 0;
    }
    let p = end - 1;
    let kind = parts::code(cells, p);
    if kind < Code::LIST {
        return leaves::leaf(task, kind, parts::load(cells, p), bytes, names, types);
    }
    let n = parts::count(cells, p);
    let s = operands(cells, bytes, names, types, task, p, n, depth);
    compound(kind, n, s)
}

// Whether the expression of a task whose parts end before `end` has a type that fits its role: document 01's three added rules.
pub fn fits(
    cells: &[u32],
    bytes: &[u8],
    names: &[u32],
    types: &[u8],
    task: usize,
    end: usize,
    depth: usize,
    role: Role,
) -> bool
    ensures { Fits (table cells.now bytes.now) names.now types.now task end depth role result }
{
    let found = type_of(cells, bytes, names, types, task, end, depth);
    fitting::suits(found, bytes, names, types, role)
}

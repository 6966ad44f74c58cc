// The steps of the expression reader: the next token's terminal and level, and writing the rows of parts.
// A row is the kind, the number of operands, the size and the load of a part. What has no room is counted and not written.
#![tactic(auto)]

pub mod operators;

ghost use Rattle.std.specs.Prelude.{◌≡◌, true, false, ◌+◌, ◌≤◌, ◌<◌};
ghost use Rattle.expression_steps.specs.Levels.{kind_at};
ghost use Rattle.expression_steps.specs.Made.{Puts, TakesMinuses, Negates};

use limits::Expressions;
use parts::{Code, Row};
use terminals::Terminal;

// What reading an expression comes to.
#[derive(Drop)]
pub struct Built {
    pub ok: bool,
    // the token behind it
    pub next: usize,
    // the part behind its last
    pub used: usize,
    pub depth: usize,
    // the elements of its longest list
    pub longest: usize,
}

pub fn refused() -> Built
    ensures { result.ok ≡ false }
{
    Built {
        ok: false,
        next: 0,
        used: 0,
        depth: 0,
        longest: 0,
    }
}

// What is no terminal.
const NONE: u8 = 255;

// The terminal of a token; none past the last.
pub fn kind_at(kinds: &[u8], p: usize) -> u8
    ensures { result ≡ kind_at kinds.now p }
{
    if p < kinds.len() { kinds[p] } else { NONE }
}

// A depth with `n` added, and never more than `most`: no expression is deeper than it has tokens.
pub fn deeper(depth: usize, n: usize, most: usize) -> usize
    ensures { depth + n ≤ most → result ≡ depth + n }
{
    depth.saturating_add(n).min(most)
}

// Writes the row `v`, if there is room: a part of kind `k` with `n` operands in the rows from `a` on.
pub fn put(cells: &mut [u32], v: usize, k: u8, n: usize, a: usize, l: u32)
    ensures { Puts cells.old cells.new v k n a l }
{
    let room = v < Expressions::PARTS && v < cells.len() / Row::CELLS;
    if !room || v < a || Expressions::PARTS < n {
        return;
    }
    let i = v * Row::CELLS;
    cells[i] = u32::from(k);
    cells[i + Row::COUNT] = n as u32;
    cells[i + Row::SIZE] = (v + 1 - a) as u32;
    cells[i + Row::LOAD] = l;
}

// Counts minuses: the first token from `p` on that is none.
pub fn minuses(kinds: &[u8], p: usize) -> usize
    ensures { TakesMinuses kinds.now p result }
{
    for q in p..kinds.len() {
        if kinds[q] != Terminal::MINUS {
            return q;
        }
    }
    p.max(kinds.len())
}

// Puts `m` minuses on what the rows from `u` up to `v` hold.
pub fn negate(cells: &mut [u32], u: usize, v: usize, m: usize)
    requires { v + m < 18446744073709551616 }
    ensures { Negates cells.old cells.new u v m }
{
    for i in 0..m {
        put(cells, v + i, Code::NEGATE as u8, 1, u, 0);
    }
}

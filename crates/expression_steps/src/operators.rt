// The operators between operands: how tight each holds, and those that wait for their right operand, on a stack.
ghost use Rattle.std.specs.Prelude.{◌≡◌, ◌+◌, ◌≤◌, ◌<◌};
ghost use Rattle.expression_steps.specs.Levels.{level_of, level_in, code_of, kind_at, where_of};
ghost use Rattle.expression_steps.specs.Made.{Reduces};

use super::{deeper, kind_at, put};
use parts::Code;
use terminals::Terminal;

// How many operators wait at most: one of each level, and room.
pub const WAITING: usize = 8;

// An operand, and how many operators wait before it.
#[derive(Drop)]
pub struct Operand {
    pub n: usize,
    // its first row, and the one behind its last
    pub from: usize,
    pub used: usize,
    pub depth: usize,
}

// How tight operators hold. The fourth level is left out.
#[derive(Drop)]
struct Levels;

impl Levels {
    const NONE: u8 = 0;

    const OR: u8 = 1;

    const AND: u8 = 2;

    const COMPARISON: u8 = 3;

    const SUM: u8 = 5;

    const PRODUCT: u8 = 6;
}

// How tight the operator of terminal `k` holds.
// Document 01: "loosest to tightest are `or`; `and`; comparison and membership; `#` and `++`; `+ -`; `* /`".
pub fn level(k: u8) -> u8
    ensures { result ≡ level_of k }
{
    match k {
        Terminal::OR | Terminal::OR_UPPER => Levels::OR,
        Terminal::AND | Terminal::AND_UPPER => Levels::AND,
        Terminal::INCLUDE | Terminal::INCLUDES | Terminal::ONEOF => Levels::COMPARISON,
        Terminal::EQUALS | Terminal::NOT_EQUAL => Levels::COMPARISON,
        Terminal::LESS | Terminal::LESS_EQUAL | Terminal::EQUAL_LESS => Levels::COMPARISON,
        Terminal::GREATER | Terminal::GREATER_EQUAL | Terminal::EQUAL_GREATER => Levels::COMPARISON,
        Terminal::PLUS | Terminal::MINUS => Levels::SUM,
        Terminal::TIMES | Terminal::DIVIDE => Levels::PRODUCT,
        _ => Levels::NONE,
    }
}

// The number of the part that an operator is.
pub fn number(k: u8) -> u8
    ensures { result ≡ code_of k }
{
    match k {
        Terminal::OR | Terminal::OR_UPPER => Code::OR as u8,
        Terminal::AND | Terminal::AND_UPPER => Code::AND as u8,
        Terminal::LESS => Code::LESS as u8,
        Terminal::LESS_EQUAL | Terminal::EQUAL_LESS => Code::LESS_OR_EQUAL as u8,
        Terminal::GREATER => Code::GREATER as u8,
        Terminal::GREATER_EQUAL | Terminal::EQUAL_GREATER => Code::GREATER_OR_EQUAL as u8,
        Terminal::EQUALS => Code::EQUAL as u8,
        Terminal::NOT_EQUAL => Code::NOT_EQUAL as u8,
        Terminal::INCLUDE | Terminal::INCLUDES => Code::INCLUDES as u8,
        Terminal::ONEOF => Code::ONEOF as u8,
        Terminal::PLUS => Code::PLUS as u8,
        Terminal::MINUS => Code::MINUS as u8,
        Terminal::TIMES => Code::TIMES as u8,
        _ => Code::DIVIDE as u8,
    }
}

// The level of the token at `p`; an `and` ends an assigned expression.
pub fn level_at(kinds: &[u8], p: usize, assigned: bool) -> u8
    ensures { result ≡ level_in (where_of assigned) (kind_at kinds.now p) }
{
    let k = kind_at(kinds, p);
    if assigned && k == Terminal::AND {
        Levels::NONE
    } else {
        level(k)
    }
}

// Applies the operators that wait and are not looser than `l`: "Each level groups to the left."
// Of each that waits: its terminal, and the first row and the depth of its left operand. No depth is more than `most`.
pub fn reduce(
    cells: &mut [u32],
    ks: [u8; WAITING],
    fs: [usize; WAITING],
    ds: [usize; WAITING],
    o: Operand,
    l: u8,
    most: usize,
) -> Operand
    requires { (o.n ≤ 8) × (o.used + o.n < 18446744073709551616) }
    ensures { Reduces cells.old cells.new ks fs ds o l most result }
{
    let mut from = o.from;
    let mut used = o.used;
    let mut depth = o.depth;
    for i in (0..o.n).rev() {
        let k = ks[i];
        if level(k) < l {
            return Operand {
                n: i + 1,
                from,
                used,
                depth,
            };
        }
        from = fs[i];
        put(cells, used, number(k), 2, from, 0);
        depth = deeper(ds[i].max(depth), 1, most);
        used += 1;
    }
    Operand {
        n: 0,
        from,
        used,
        depth,
    }
}

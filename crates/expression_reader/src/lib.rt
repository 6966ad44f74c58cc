// The expression reader: from the tokens of an expression to its rows of parts, in postfix order, and its measures; in one pass.
// The expression reader and the list reader call each other, at brackets only, with a depth that falls.
#![tactic(auto)]

mod single;

ghost use Rattle.std.specs.Prelude.{◌≡◌, ◌≤◌};
ghost use Rattle.leaves.specs.Source.{source, source_of};
ghost use Rattle.expression_steps.specs.Levels.{where_of};
ghost use Rattle.expression_steps.specs.Made.{ReadsOperand, ReadsExpression, ReadsList};
ghost use Rattle.expression_reader.specs.Reads.{Reads};

use expression_steps::operators::{Operand, WAITING};
use expression_steps::{Built, deeper, kind_at, operators, refused};
use leaves::{Tokens, Word};
use limits::Brackets;
use parts::Code;
use terminals::Terminal;

const LIST: u8 = Code::LIST as u8;

// What holds tightest: a single token, or what stands in brackets.
#[cycle(expression_list_operand_primary)]
fn primary(tokens: Tokens, cells: &mut [u32], p: usize, u: usize, d: usize) -> Built
    requires { u ≤ p }
    ensures { ReadsOperand 8 (source_of tokens.entry) cells.old cells.new p u d result }
{
    let k = kind_at(tokens.kinds, p);
    if k == Terminal::LEFT_PARENTHESIS {
        if d == 0 {
            return refused();
        }
        let e = expression(tokens, cells, p + 1, u, d - 1, false);
        if !e.ok {
            return refused();
        }
        let n = e.next;
        if kind_at(tokens.kinds, n) == Terminal::RIGHT_PARENTHESIS {
            return single::rounded(tokens.kinds, n, e);
        }
        return refused();
    }
    if k == Terminal::LEFT_BRACKET {
        if d == 0 {
            return refused();
        }
        let h = Word {
            kind: LIST,
            load: 0,
        };
        return list(tokens, cells, p + 1, u, d - 1, Terminal::RIGHT_BRACKET, h);
    }
    if single::calls(tokens.kinds, p) {
        if d == 0 {
            return refused();
        }
        let h = single::head_at(tokens, p);
        return list(
            tokens,
            cells,
            p + 2,
            u,
            d - 1,
            Terminal::RIGHT_PARENTHESIS,
            h,
        );
    }
    single::single(tokens, cells, p, u)
}

// Minuses, and what they stand before.
#[cycle(expression_list_operand_primary)]
fn operand(tokens: Tokens, cells: &mut [u32], p: usize, u: usize, d: usize) -> Built
    requires { u ≤ p }
    ensures { ReadsOperand 7 (source_of tokens.entry) cells.old cells.new p u d result }
{
    let q = expression_steps::minuses(tokens.kinds, p);
    let e = primary(tokens, cells, q, u, d);
    if !e.ok {
        return refused();
    }
    let m = q - p;
    expression_steps::negate(cells, u, e.used, m);
    Built {
        ok: true,
        next: e.next,
        used: e.used + m,
        depth: deeper(e.depth, m, tokens.kinds.len()),
        longest: e.longest,
    }
}

// The elements between brackets, up to the token that closes them, and the part that they are operands of.
#[cycle(expression_list_operand_primary)]
fn list(
    tokens: Tokens,
    cells: &mut [u32],
    p: usize,
    u: usize,
    d: usize,
    close: u8,
    h: Word,
) -> Built
    requires { u ≤ p }
    ensures { ReadsList close h (source_of tokens.entry) cells.old cells.new p u d result }
{
    let mut m = Built {
        ok: true,
        next: p,
        used: u,
        depth: 0,
        longest: 0,
    };
    if kind_at(tokens.kinds, p) == close {
        return single::closed(tokens.kinds, cells, u, m, 0, close, h);
    }
    let mut q = p;
    let mut n = 0;
    loop {
        let e = expression(tokens, cells, q, m.used, d, false);
        if !e.ok {
            return refused();
        }
        let j = e.next;
        let k = kind_at(tokens.kinds, j);
        n += 1;
        m = single::also(m, e);
        if k == close {
            return single::closed(tokens.kinds, cells, u, m, n, close, h);
        }
        if k != Terminal::COMMA {
            return refused();
        }
        q = j + 1;
    }
}

// Operands and operators: the operators that wait for their right operand are on a stack, at most one of each level.
#[cycle(expression_list_operand_primary)]
fn expression(
    tokens: Tokens,
    cells: &mut [u32],
    p: usize,
    u: usize,
    d: usize,
    assigned: bool,
) -> Built
    requires { u ≤ p }
    ensures { ReadsExpression (where_of assigned) (source_of tokens.entry) cells.old cells.new p u d result }
{
    let mut ks = [0u8; WAITING];
    let mut fs = [0usize; WAITING];
    let mut ds = [0usize; WAITING];
    let mut n = 0;
    let mut q = p;
    let mut w = u;
    let mut longest = 0;
    loop {
        let e = operand(tokens, cells, q, w, d);
        if !e.ok {
            return refused();
        }
        let j = e.next;
        let l = operators::level_at(tokens.kinds, j, assigned);
        let o = Operand {
            n,
            from: w,
            used: e.used,
            depth: e.depth,
        };
        let r = operators::reduce(cells, ks, fs, ds, o, l, tokens.kinds.len());
        longest = longest.max(e.longest);
        if l == 0 {
            return Built {
                ok: true,
                next: j,
                used: r.used,
                depth: r.depth,
                longest,
            };
        }
        let m = r.n;
        if WAITING <= m {
            return refused();
        }
        ks[m] = kind_at(tokens.kinds, j);
        fs[m] = r.from;
        ds[m] = r.depth;
        n = m + 1;
        q = j + 1;
        w = r.used;
    }
}

// Reads the expression whose first token is `from`, and writes its parts to the rows from `u` on, as far as there is room.
pub fn read(
    text: &[u8],
    kinds: &[u8],
    places: &[usize],
    lengths: &[usize],
    from: usize,
    assigned: bool,
    cells: &mut [u32],
    u: usize,
) -> Built
    requires { u ≤ from }
    ensures { Reads (where_of assigned) (source text.now kinds.now places.now lengths.now) cells.old cells.new from u result }
{
    let tokens = Tokens {
        text,
        kinds,
        places,
        lengths,
    };
    expression(tokens, cells, from, u, Brackets::LIMIT, assigned)
}

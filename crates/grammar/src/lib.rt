// A machine over a guideline's tokens: accepts exactly the sentences of the print, or answers the first token that no sentence can have there.
// It goes by one token at a time, with a stack of the symbols that are still to come; the stack grows down from the array's end.
#![tactic(auto)]

ghost use Rattle.std.specs.Prelude.{◌≡◌, MatchOption, map, ◌++◌, ◌+◌, ◌≤◌, ◌<◌, length, drop};
ghost use Rattle.std.proofs.Math.Seq.{slice};
ghost use Rattle.paper_grammar.proofs.Laws.Ll.{Sym, blank};
ghost use Rattle.paper_grammar.proofs.Laws.Form.{G};
ghost use Rattle.paper_guideline.specs.Limits.{token_limit};
ghost use Rattle.grammar.specs.Tables.{table, sym_of, alternatives, byte_of, side_of, seek_in, choice_of};
ghost use Rattle.grammar.specs.Machine.{passed, past, Stepped, Ends};
ghost use Rattle.grammar.specs.Reply.{form_of, Verdict};

use limits::TokenList;
use tables::Layout;

mod tables;

// The cells of the stack: a token leaves at most so many symbols more there.
const STACK: usize = Layout::FOLLOWING * TokenList::LIMIT;

const BOTTOM: usize = STACK - 1;

// What is below this on the stack is a terminal; from here on stand the symbols of the deterministic form.
const SYMBOL: u8 = 128;

const FIRST: usize = SYMBOL as usize;

const PROCESS: u8 = SYMBOL;

// The form has it as its 40th, counted from 0.
const EXPRESSION: u8 = SYMBOL + 40;

// The symbols from which a sentence may come.
#[derive(Drop)]
pub enum Start {
    Process,
    Expression,
}

#[derive(Drop)]
pub enum Answer {
    Accepted,
    // The first token that no sentence can have there; the number of tokens, where a sentence would need more.
    Refused(usize),
    // There are over TokenList::LIMIT tokens; none was looked at.
    Unread,
}

// The byte j of the alternative a.
fn byte(t: &[u8; Layout::BYTES], a: usize, j: usize) -> u8
    requires a_bound { (a < 210) × (j < 10) }
    requires t_value { t.now ≡ table }
    ensures { result ≡ byte_of a j }
{
    t[Layout::ALTERNATIVES + a * Layout::WIDTH + j]
}

// The first of the alternatives from `from` up to `to` that begins with k.
fn seek(t: &[u8; Layout::BYTES], k: u8, from: usize, to: usize) -> Option<usize>
    requires from_le_to { (from ≤ to) × (to ≤ 210) }
    requires t_value { t.now ≡ table }
    ensures { MatchOption result (seek_in k from (slice from to alternatives) ≡ 0) (λ a. seek_in k from (slice from to alternatives) ≡ a + 1) }
{
    for a in from..to {
        if byte(t, a, 0) == k {
            return Some(a);
        }
    }
    None
}

// The alternative of the symbol x that begins with k, counted over all.
fn choice(t: &[u8; Layout::BYTES], x: usize, k: u8) -> Option<usize>
    requires { t.now ≡ table }
    ensures { MatchOption result (choice_of x k ≡ 0) (λ a. choice_of x k ≡ a + 1) }
{
    if x < Layout::SYMBOLS {
        seek(t, k, usize::from(t[x]), usize::from(t[x + 1]))
    } else {
        None
    }
}

fn may_be_empty(t: &[u8; Layout::BYTES], x: usize) -> bool
    requires { t.now ≡ table }
    ensures { result ≡ G.empty x }
{
    Layout::SYMBOLS <= x || t[Layout::EMPTY + x] == b'1'
}

// Whether c is passed over at k: a symbol that may be empty, of which no alternative begins with k.
fn passes(t: &[u8; Layout::BYTES], c: u8, k: u8) -> bool
    requires { t.now ≡ table }
    ensures { result ≡ passed k (sym_of c) }
{
    if c < SYMBOL {
        return false;
    }
    let x = usize::from(c) - FIRST;
    choice(t, x, k).is_none() && may_be_empty(t, x)
}

// The top once those are off the stack that are passed over at k.
fn skip(t: &[u8; Layout::BYTES], stack: &[u8; STACK], top: usize, k: u8) -> usize
    requires stack_len { (length stack.now ≡ 32768) × (top ≤ 32768) }
    requires t_value { t.now ≡ table }
    ensures { ((top ≤ result) × (result ≤ 32768)) × (map sym_of (drop result stack.now) ≡ past k (map sym_of (drop top stack.now))) }
{
    for at in top..STACK {
        if !passes(t, stack[at], k) {
            return at;
        }
    }
    STACK
}

// Whether all that is still to come may be empty.
fn all_may_be_empty(t: &[u8; Layout::BYTES], stack: &[u8; STACK], top: usize) -> bool
    requires stack_len { length stack.now ≡ 32768 }
    requires t_value { t.now ≡ table }
    ensures { result ≡ blank G (map sym_of (drop top stack.now)) }
{
    for at in top..STACK {
        let c = stack[at];
        if c < SYMBOL || !may_be_empty(t, usize::from(c) - FIRST) {
            return false;
        }
    }
    true
}

// Puts on the stack what follows the first token of the alternative a.
fn push(t: &[u8; Layout::BYTES], stack: &mut [u8; STACK], top: usize, a: usize) -> usize
    requires stack_len { (length stack.old ≡ 32768) × (a < 210) × (8 ≤ top) × (top ≤ 32768) }
    requires t_value { t.now ≡ table }
    ensures { (length stack.new ≡ 32768) × (top ≤ result + 8) × (result ≤ top) × (drop result stack.new ≡ side_of a ++ drop top stack.old) }
{
    let n = usize::from(byte(t, a, 1));
    let from = Layout::ALTERNATIVES + a * Layout::WIDTH + 2;
    let side = &t[from..from + n];
    let at = top - n;
    stack[at..top].copy_from_slice(side);
    at
}

// Takes the token k off what is still to come: the stack's new top, or none where k cannot stand there.
fn step(t: &[u8; Layout::BYTES], stack: &mut [u8; STACK], top: usize, k: u8) -> Option<usize>
    requires stack_len { (length stack.old ≡ 32768) × (8 ≤ top) × (top ≤ 32768) }
    requires t_value { t.now ≡ table }
    ensures { Stepped (drop top stack.old) k top stack.new result }
{
    let at = skip(t, stack, top, k);
    if at == STACK {
        return None;
    }
    let c = stack[at];
    if c < SYMBOL {
        return if c == k { Some(at + 1) } else { None };
    }
    let a = choice(t, usize::from(c) - FIRST, k)?;
    Some(push(t, stack, at + 1, a))
}

// Takes the tokens one after the other.
fn walk(t: &[u8; Layout::BYTES], kinds: &[u8], stack: &mut [u8; STACK]) -> Answer
    requires stack_len { (length stack.old ≡ 32768) × (length kinds.now ≤ token_limit) }
    requires t_value { t.now ≡ table }
    ensures { Ends (map sym_of (drop 32767 stack.old)) kinds.now result }
{
    let mut top = BOTTOM;
    for (i, k) in kinds.iter().enumerate() {
        let Some(next) = step(t, stack, top, *k) else {
            return Answer::Refused(i);
        };
        top = next;
    }
    if all_may_be_empty(t, stack, top) {
        Answer::Accepted
    } else {
        Answer::Refused(kinds.len())
    }
}

// The start symbol as it stands on the stack.
fn code(start: Start) -> u8
    ensures { sym_of result ≡ Sym.N (form_of start) }
{
    match start {
        Start::Process => PROCESS,
        Start::Expression => EXPRESSION,
    }
}

// Reads the tokens as a sentence from the start symbol. A token is a number as the definitions' Tokens has it: one over Terminal::STRING stands in no sentence.
pub fn read(kinds: &[u8], start: Start) -> Answer
    ensures { Verdict start kinds.now result }
{
    if TokenList::LIMIT < kinds.len() {
        return Answer::Unread;
    }
    let t = tables::table();
    let mut stack = [0u8; STACK];
    stack[BOTTOM] = code(start);
    walk(&t, kinds, &mut stack)
}

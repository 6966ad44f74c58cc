// The small program's answer to one line: the bytes that it writes behind the line's number.
// First the tests, stage by stage; then the type and the value.
#![tactic(auto)]

mod tests;
mod valued;

ghost use Rattle.std.specs.Prelude.{◌≡◌, length};
ghost use Rattle.line_answer.specs.Reply.{Reply, Answered};
ghost use Rattle.line_answer.specs.Steps.{Blank, Lexed};

use limits::{Expressions, TokenList};
use tests::Refused;
use tokens::Read;
use written::Answer;

// The tests on the tokens, and then the value.
fn tested(line: &[u8], kinds: &[u8], places: &[usize], lengths: &[usize], out: &mut [u8]) -> usize
    requires lexed { Lexed line.now kinds.now places.now lengths.now }
    requires blank { Blank out.old }
    ensures { Answered line.now (length out.old) out.new result }
{
    if let Err(Refused(n)) = tests::parse(line, kinds, places, lengths) {
        return written::refused(n, out, 0);
    }
    let mut cells = [0u32; Expressions::CELLS];
    match tests::fit(line, kinds, places, lengths, &mut cells) {
        Ok(end) => valued::value(&cells, line, end, out),
        Err(Refused(n)) => written::refused(n, out, 0),
    }
}

// The answer to a line, its bytes from the first cell on and zeros behind them; how many bytes it has.
// Where an answer may have more bytes than there are cells, none is given.
pub fn answer(line: &[u8], out: &mut [u8]) -> usize
    ensures { Reply line.now (length out.old) out.new result }
{
    blank::clear_bytes(out);
    if out.len() < Answer::LIMIT {
        return 0;
    }
    let mut kinds = [0u8; TokenList::LIMIT];
    let mut places = [0usize; TokenList::LIMIT];
    let mut lengths = [0usize; TokenList::LIMIT];
    match tokens::into_blank(line, &mut kinds, &mut places, &mut lengths) {
        Read::Short => 0,
        Read::Refused(n, _) => written::refused(n, out, 0),
        Read::Tokens(n) => tested(line, &kinds[..n], &places, &lengths, out),
    }
}

// The tests on the tokens of a line: the grammar, what is left out, the limits.
ghost use Rattle.std.specs.Prelude.{◌≡◌, ◌*◌, length};
ghost use Rattle.paper_guideline.specs.Limits.{part_limit};
ghost use Rattle.line_answer.specs.Steps.{Lexed, Parsed, Parses, Fits};

use grammar::{Answer, Start};
use limits::{Expression, Expressions, Refusal};
use values::List;

// The number of a refusal.
#[derive(Clone, Copy)]
pub struct Refused(pub u8);

// Refusals 3 and 10: the tokens are no expression, or use something left out.
pub fn parse(line: &[u8], kinds: &[u8], places: &[usize], lengths: &[usize]) -> Result<(), Refused>
    requires { Lexed line.now kinds.now places.now lengths.now }
    ensures { Parses line.now kinds.now places.now lengths.now result }
{
    let Answer::Accepted = grammar::read(kinds, Start::Expression) else {
        return Err(Refused(Refusal::GRAMMAR));
    };
    match token_tests::left_out(line, kinds, places, lengths) {
        Some(_) => Err(Refused(Refusal::LEFT_OUT)),
        None => Ok(()),
    }
}

// Where the parts of the expression end, which are written over the line's own bytes; or refusal 6: a token, the depth, a list or the number of parts is past its limit.
pub fn fit(
    line: &[u8],
    kinds: &[u8],
    places: &[usize],
    lengths: &[usize],
    cells: &mut [u32],
) -> Result<usize, Refused>
    requires parsed { Parsed line.now kinds.now places.now lengths.now }
    requires cells_len { length cells.old ≡ part_limit * 4 }
    ensures { Fits line.now cells.new result }
{
    if let Some(_) = token_tests::past_limit(line, kinds, places, lengths) {
        return Err(Refused(Refusal::LIMIT));
    }
    let m = expression_reader::read(line, kinds, places, lengths, 0, false, cells, 0);
    if Expression::DEPTH < m.depth || List::LIST_LIMIT < m.longest || Expressions::PARTS < m.used {
        return Err(Refused(Refusal::LIMIT));
    }
    Ok(m.used)
}

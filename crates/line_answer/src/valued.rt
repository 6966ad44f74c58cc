// The type and the value of a line that passed the tests, written as its answer.
ghost use Rattle.std.specs.Prelude.{length};
ghost use Rattle.parts.specs.Part.{table};
ghost use Rattle.line_answer.specs.Steps.{Blank, Worth, Comes};

use limits::{Expression, Refusal};

// The value of an expression of the type with the letter, whose parts end before `end`. There are no data items and no tasks.
fn worth(cells: &[u32], bytes: &[u8], end: usize, letter: u8, out: &mut [u8]) -> usize
    requires { Blank out.old }
    ensures { Worth (table cells.now bytes.now) end letter (length out.old) out.new result }
{
    let none = &cells[0..0];
    let v = evaluator::value_of(
        cells,
        bytes,
        none,
        none,
        none,
        none,
        none,
        0,
        end,
        Expression::DEPTH,
    );
    written::gives(bytes, letter, v, out, 0)
}

// Refusal 5, or the type and the value of the expression whose parts end before `end`.
pub fn value(cells: &[u32], bytes: &[u8], end: usize, out: &mut [u8]) -> usize
    requires { Blank out.old }
    ensures { Comes (table cells.now bytes.now) end (length out.old) out.new result }
{
    let names = &cells[0..0];
    let types = &bytes[0..0];
    let letter = typer::type_of(cells, bytes, names, types, 0, end, Expression::DEPTH);
    if letter == 0 {
        return written::refused(Refusal::TYPE, out, 0);
    }
    worth(cells, bytes, end, letter, out)
}

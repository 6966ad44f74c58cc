// What is decided of a whole text: it loads, or number and place of its refusal. For programs that want no tables.
ghost use Rattle.answering.specs.Decided.{Decides};

use limits::{Expressions, Guideline, Rows};
use stages::Refused;

// Answers with tables that are never short.
pub fn decide(text: &[u8]) -> Result<(), Refused>
    ensures { Decides text.now result }
{
    let mut rows = [0u32; Rows::CELLS];
    let mut cells = [0u32; Expressions::CELLS];
    let mut bytes = [0u8; Guideline::LIMIT];
    crate::judge(text, &mut rows, &mut cells, &mut bytes)?;
    Ok(())
}

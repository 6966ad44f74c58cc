// The whole of reading: a guideline's bytes to its tables, or number and place of its refusal by 1, 2, 3, 10 or 6.
#![tactic(auto)]

ghost use Rattle.parts.specs.Part.{table};
ghost use Rattle.reading.specs.Reply.{Answered, Begun};

use limits::{Refusal, TokenList};
use stages::Refused;
use tokens::Read;

// The tokens, over blank tables.
fn lexed(
    text: &[u8],
    rows: &mut [u32],
    cells: &mut [u32],
    bytes: &mut [u8],
) -> Result<usize, Refused>
    ensures { Begun text.now rows.old (table cells.old bytes.old) rows.new (table cells.new bytes.new) result }
{
    let mut kinds = [0u8; TokenList::LIMIT];
    let mut places = [0usize; TokenList::LIMIT];
    let mut lengths = [0usize; TokenList::LIMIT];
    match tokens::into_blank(text, &mut kinds, &mut places, &mut lengths) {
        Read::Short => Err(Refused {
            number: Refusal::LIMIT,
            place: text.len(),
        }),
        Read::Refused(number, place) => Err(Refused { number, place }),
        Read::Tokens(n) => stages::judge(text, &kinds[..n], &places, &lengths, rows, cells, bytes),
    }
}

// Reads a guideline: how many rows there are, in the tables, or the refusal. All tables are blank where it is refused.
pub fn read(
    text: &[u8],
    rows: &mut [u32],
    cells: &mut [u32],
    bytes: &mut [u8],
) -> Result<usize, Refused>
    ensures { Answered text.now rows.old (table cells.old bytes.old) rows.new (table cells.new bytes.new) result }
{
    stages::blank(rows, cells, bytes);
    lexed(text, rows, cells, bytes)
}

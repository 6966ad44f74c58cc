// Load's answer: a guideline's bytes to its rows, parts and texts, or number and place of its refusal, by all stages.
#![tactic(auto)]

mod verdict;

ghost use Rattle.parts.specs.Part.{table};
ghost use Rattle.answering.specs.Reply.{Answered, Named, Typed};

use limits::Refusal;
use stages::Refused;
pub use verdict::decide;

// 5: of rows that break no rule on names.
fn typed(rows: &mut [u32], cells: &mut [u32], bytes: &mut [u8], n: usize) -> Result<usize, Refused>
    ensures { Typed rows.old (table cells.old bytes.old) n rows.new (table cells.new bytes.new) result }
{
    match types::check(rows, n, cells, bytes) {
        None => Ok(n),
        Some(place) => {
            stages::blank(rows, cells, bytes);
            Err(Refused {
                number: Refusal::TYPE,
                place,
            })
        }
    }
}

// 4, and then 5.
fn named(rows: &mut [u32], cells: &mut [u32], bytes: &mut [u8], n: usize) -> Result<usize, Refused>
    ensures { Named rows.old (table cells.old bytes.old) n rows.new (table cells.new bytes.new) result }
{
    match names::check(rows, n, bytes) {
        None => typed(rows, cells, bytes, n),
        Some(place) => {
            stages::blank(rows, cells, bytes);
            Err(Refused {
                number: Refusal::NAME,
                place,
            })
        }
    }
}

// Judges a text by all stages: how many rows there are, in the tables, or the refusal. All tables are blank where it is refused.
pub fn judge(
    text: &[u8],
    rows: &mut [u32],
    cells: &mut [u32],
    bytes: &mut [u8],
) -> Result<usize, Refused>
    ensures { Answered text.now rows.old (table cells.old bytes.old) rows.new (table cells.new bytes.new) result }
{
    let n = reading::read(text, rows, cells, bytes)?;
    named(rows, cells, bytes, n)
}

// The stages of load from the grammar to the limits: what the tokens of a text are refused with, and where; or the tables of their structure.
#![tactic(auto)]

mod limiting;
mod room;

ghost use Rattle.std.specs.Prelude.{◌≡◌, true};
ghost use Rattle.parts.specs.Part.{table};
ghost use Rattle.stages.specs.Judged.{Places, Sentences, Empty, Judges, Limited};

use blank::{clear, clear_bytes};
use grammar::{Answer, Start};
use leaves::cell;
use limiting::over_limits;
use limits::Refusal;

// A refusal: its number, and the place where it is told.
#[derive(Clone, Copy, PartialEq, Eq)]
pub struct Refused {
    pub number: u8,
    pub place: usize,
}

// The place of the i-th token; behind the last, the text's length.
fn place_of(text: &[u8], kinds: &[u8], places: &[usize], i: usize) -> usize
    ensures { Places text.now kinds.now places.now i result }
{
    if i < kinds.len() {
        cell(places, i)
    } else {
        text.len()
    }
}

// Refusal 3: the first token that no guideline can have there.
fn first_bad(text: &[u8], kinds: &[u8], places: &[usize]) -> Option<usize>
    ensures { Sentences text.now kinds.now places.now result }
{
    match grammar::read(kinds, Start::Process) {
        Answer::Accepted => None,
        Answer::Refused(i) => Some(place_of(text, kinds, places, i)),
        Answer::Unread => Some(text.len()),
    }
}

// All tables, set to zero.
pub fn blank(rows: &mut [u32], cells: &mut [u32], bytes: &mut [u8])
    ensures { Empty rows.old (table cells.old bytes.old) rows.new (table cells.new bytes.new) }
{
    clear(rows);
    clear(cells);
    clear_bytes(bytes);
}

// The limits that are tested after what is left out, on one walk over the tokens: the number of rows, or the refusal.
fn within_limits(
    text: &[u8],
    kinds: &[u8],
    places: &[usize],
    lengths: &[usize],
    rows: &mut [u32],
    cells: &mut [u32],
    bytes: &mut [u8],
) -> Result<usize, Refused>
    ensures { Limited text.now kinds.now places.now lengths.now rows.old (table cells.old bytes.old) rows.new (table cells.new bytes.new) result }
{
    let short = room::short(rows.len(), cells.len(), bytes.len());
    let w = guideline_walk::walk(text, kinds, places, lengths, rows, cells, bytes);
    match over_limits(text, kinds, places, lengths, w, short) {
        Some(place) => {
            blank(rows, cells, bytes);
            Err(Refused {
                number: Refusal::LIMIT,
                place,
            })
        }
        None => Ok(w.rows),
    }
}

// Tests 3, 10 and 6, in this order, over blank tables, for the number of rows or the refusal: the tables of an accepted text are written, and those of a refused one blank again.
pub fn judge(
    text: &[u8],
    kinds: &[u8],
    places: &[usize],
    lengths: &[usize],
    rows: &mut [u32],
    cells: &mut [u32],
    bytes: &mut [u8],
) -> Result<usize, Refused>
    ensures { Judges text.now kinds.now places.now lengths.now rows.old (table cells.old bytes.old) rows.new (table cells.new bytes.new) result }
{
    if let Some(place) = first_bad(text, kinds, places) {
        return Err(Refused {
            number: Refusal::GRAMMAR,
            place,
        });
    }
    if let Some(place) = token_tests::left_out(text, kinds, places, lengths) {
        return Err(Refused {
            number: Refusal::LEFT_OUT,
            place,
        });
    }
    within_limits(text, kinds, places, lengths, rows, cells, bytes)
}

// The name of a row and the texts of its expression, moved to the text bytes.
ghost use Rattle.std.specs.Prelude.{◌≡◌};
ghost use Rattle.guideline_walk.specs.Made.{SpellsName, MovesName, MovesTexts};

use guideline_rows::spelt;
use guideline_turns::{Extent, Label};
use leaves::Tokens;
use leaves::names::Span;
use limits::Guideline;
use parts::HANDLE;
use pool::{NOWHERE, copy, gather, room};

// A name's handle, 0 if there is none, and the place behind it.
#[derive(Drop)]
pub struct Moved {
    pub handle: u32,
    pub behind: usize,
}

// The name that the token `j` is, without its quotes.
fn name_at(tokens: Tokens, j: usize) -> Span
    ensures { SpellsName tokens.entry.text.now tokens.entry.places.now tokens.entry.lengths.now j result }
{
    let s = spelt(tokens, j);
    if Guideline::LIMIT < tokens.text.len() || HANDLE <= s.n {
        Span { at: 0, n: 0 }
    } else {
        s
    }
}

// Moves the name of a row, if it has one, to the bytes from `o` on.
pub fn move_name(tokens: Tokens, bytes: &mut [u8], name: Option<Label>, o: usize) -> Moved
    ensures { MovesName tokens.entry.text.now tokens.entry.places.now tokens.entry.lengths.now bytes.old bytes.new name o result }
{
    let Some(name) = name else {
        return Moved {
            handle: 0,
            behind: o,
        };
    };
    let s = name_at(tokens, name.token);
    let n = s.n;
    if !room(bytes.len(), o, n) {
        return Moved {
            handle: 0,
            behind: NOWHERE,
        };
    }
    copy(tokens.text, s.at, n, bytes, o);
    Moved {
        handle: (o * HANDLE + n) as u32,
        behind: o + n,
    }
}

// Moves the texts of an expression's parts, if there is one, to the bytes from `o` on. Answers the place behind them.
pub fn move_texts(
    text: &[u8],
    cells: &mut [u32],
    bytes: &mut [u8],
    expression: Option<Extent>,
    o: usize,
) -> usize
    ensures { MovesTexts text.now cells.old cells.new bytes.old bytes.new expression o result }
{
    match expression {
        Some(e) => gather(text, cells, e.first, e.end, bytes, o),
        None => o,
    }
}

// The input of the small program, line by line: as it comes in chunks, the bytes of a line are gathered in a lent buffer, up to its newline.
#![tactic(auto)]

ghost use Rattle.std.specs.Prelude.{◌≡◌, ℕ, ◌≤◌, length};
ghost use Rattle.lines.specs.Kept.{kept_limit, Keeps, Takes};

use limits::Guideline;

#[derive(Drop)]
pub struct Line;

impl Line {
    // bytes that are kept of a line: one more than it may have
    pub const KEPT: usize = Guideline::LIMIT + 1;

    pub fn kept() -> usize
        ensures { result ≡ kept_limit }
    {
        Line::KEPT
    }
}

// Where to go on in the chunk, how many bytes of the line are kept, and whether its newline was met.
#[derive(Drop)]
pub struct Taken {
    pub at: usize,
    pub n: usize,
    pub ended: bool,
}

// One byte more of a line, where it is still kept.
fn keep(kept: &mut [u8], n: usize, b: u8) -> usize
    ensures { Keeps kept.old n b kept.new result }
{
    if n < Line::KEPT && n < kept.len() {
        kept[n] = b;
        n + 1
    } else {
        n
    }
}

// Moves the bytes of a chunk from a place on behind the n bytes that are kept of the line, up to its newline or to the chunk's end.
pub fn take(chunk: &[u8], from: usize, kept: &mut [u8], n: usize) -> Taken
    ensures { Takes chunk.now from kept.old n kept.new result }
{
    let mut n = n;
    for at in from..chunk.len() {
        if chunk[at] == b'\n' {
            return Taken {
                at: at + 1,
                n,
                ended: true,
            };
        }
        n = keep(kept, n, chunk[at]);
    }
    Taken {
        at: from.max(chunk.len()),
        n,
        ended: false,
    }
}

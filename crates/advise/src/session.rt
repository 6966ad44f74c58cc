// Line by line, until quit or the end of the input.
ghost use Rattle.std.specs.Prelude.{◌≡◌};
ghost use Rattle.advise.specs.Answer.{overb, Turned, Talked};

use crate::answer::answer;
use crate::shown;
use limits::WaitTable;
use sentences::write;
use std::io::Stdin;
use tree::Tables;
use typed_lines::{Held, Line, prompt};

// Whether nothing is left to be read, or to be told of a line that was too long.
fn is_over(h: Held) -> bool
    ensures { result ≡ overb h }
{
    !h.long && h.ended && h.bytes == 0
}

// Answers the line that ends at a place of the buffer; whether there may be another.
fn turn(
    buffer: &[u8],
    end: usize,
    h: Held,
    terminal: bool,
    rows: &[u32],
    parts: &[u32],
    texts: &mut [u8],
    plan: &[u32],
    waits: WaitTable,
    state: &mut [u32],
) -> bool
    ensures { Turned rows.now parts.now plan.now waits buffer.now end h.long texts.old state.old texts.new state.new result }
{
    if buffer.len() < end {
        return false;
    }
    if h.long {
        write::text(b"A line has at most 4,095 bytes; this one was not read.\n");
        return true;
    }
    let line = &buffer[..end];
    prompt::echo(terminal, line);
    answer(line, rows, parts, texts, plan, waits, state)
}

// A proved loop has to end, so its turns are counted, up to a number that no person uses up.
pub fn talk(
    stdin: &mut Stdin,
    rows: &[u32],
    parts: &[u32],
    texts: &mut [u8],
    plan: &[u32],
    waits: WaitTable,
    state: &mut [u32],
)
    ensures { Talked rows.now parts.now plan.now waits texts.old state.old texts.new state.new }
{
    shown::first(Tables {
        rows,
        parts,
        texts,
        plan,
        state,
    });
    let terminal = prompt::is_terminal(stdin);
    let mut buffer = [0u8; Line::LIMIT];
    let mut h = typed_lines::nothing();
    for _turn in 0..u64::MAX {
        prompt::ask(terminal);
        h = typed_lines::next(stdin, &mut buffer, h);
        if is_over(h) {
            return;
        }
        let end = typed_lines::newline(&buffer, h.bytes);
        if !turn(
            &buffer, end, h, terminal, rows, parts, texts, plan, waits, state,
        ) {
            return;
        }
        h = typed_lines::drop(&mut buffer, h, end);
    }
}

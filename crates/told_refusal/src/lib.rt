// A guideline from a file descriptor, any bytes; and its refusal: the line for programs, then for people the place, its line and what is wrong.
#![tactic(auto)]

mod leaf;
mod locate;
mod named;
mod refused_name;
mod refused_type;
mod say;
mod typed;

ghost use Rattle.std.specs.Prelude.{IfSome};
ghost use Rattle.told_refusal.specs.Taken.{SeesOn, Takes};

use spot::lines;
use spot::seen::Seen;

// What is known with a chunk more, if there is one.
fn next(fd: i32, s: Seen) -> Option<Seen>
    ensures { IfSome result (λ t. SeesOn s t) }
{
    let mut chunk = io::large_buffer();
    let n = io::read_full(fd, &mut chunk);
    if n == 0 {
        return None;
    }
    Some(s.see(&chunk[..n]))
}

// All that is left to read. A proved loop has to end, so it counts its turns, up to a number that no text uses up.
fn rest(fd: i32, s: Seen) -> Seen
    ensures { SeesOn s result }
{
    let mut now = s;
    for _ in 0..u64::MAX {
        match next(fd, now) {
            Some(t) => now = t,
            None => return now,
        }
    }
    now
}

// A text that was read: how many of its bytes were kept, and what is known of all of them.
#[derive(Drop)]
pub struct Taken {
    pub kept: usize,
    pub seen: Seen,
}

// Reads a text to its end, and keeps what there is room for.
pub fn take(fd: i32, kept: &mut [u8]) -> Taken
    ensures { Takes kept.old kept.new result }
{
    let n = io::read_full(fd, kept);
    let seen = Seen::nothing().see(&kept[..n]);
    if n < kept.len() {
        return Taken { kept: n, seen };
    }
    Taken {
        kept: n,
        seen: rest(fd, seen),
    }
}

// The line of a place, where it was kept.
fn show_line(text: &[u8], place: usize, total: usize) {
    if place < text.len() || total == text.len() {
        locate::line(text, place);
    }
}

// A refusal at a place, whose line and column are known.
fn tell_at(text: &[u8], number: u8, place: usize, line: usize, column: usize, s: Seen) {
    locate::head(number, place);
    locate::at(line, column);
    show_line(text, place, s.total);
    say::why(text, number, place, s);
}

// A refusal at a place of the text.
pub fn tell(text: &[u8], number: u8, place: usize, s: Seen) {
    tell_at(
        text,
        number,
        place,
        lines::line(text, place),
        lines::column(text, place),
        s,
    );
}

// A text that is too long: what is known of it says where it is refused, also where that was not kept.
pub fn too_long(text: &[u8], s: Seen) {
    tell_at(text, 1, s.place, s.line, s.column(), s);
}

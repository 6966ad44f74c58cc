// Words on standard error: what is told beside an answer.
#![tactic(auto)]

use parts::names::at;
use spot::show::shown;

const STDERR_FILENO: i32 = 2;

pub fn text(words: &[u8]) {
    io::write_all(STDERR_FILENO, words);
}

pub fn number(n: u64) {
    io::print_decimal(STDERR_FILENO, n);
}

fn byte(b: u8) {
    io::write_all(STDERR_FILENO, &[b]);
}

// As many bytes of a field as are shown.
const MOST: usize = 60;

// Bytes, made harmless, and two points where they are cut.
pub fn bytes(field: &[u8]) {
    for b in field.iter().take(MOST) {
        byte(shown(*b));
    }
    if MOST < field.len() {
        text(b"..");
    }
}

// The text with the handle `h`.
pub fn name(texts: &[u8], h: usize) {
    for i in 0..h % parts::HANDLE {
        byte(shown(at(texts, h / parts::HANDLE, i)));
    }
}

// Writing to standard output.
use spot::show::shown;

const STDOUT_FILENO: i32 = 1;

pub fn text(words: &[u8]) {
    io::write_all(STDOUT_FILENO, words);
}

pub fn number(n: usize) {
    io::print_decimal(STDOUT_FILENO, n as u64);
}

pub fn byte(b: u8) {
    io::write_all(STDOUT_FILENO, &[b]);
}

// The bytes from one place up to another, made harmless.
pub fn part(text: &[u8], from: usize, to: usize) {
    let Some(bytes) = text.get(from..to.min(text.len())) else {
        return;
    };
    for b in bytes {
        byte(shown(*b));
    }
}

pub fn blanks(n: usize) {
    for _ in 0..n {
        byte(b' ');
    }
}

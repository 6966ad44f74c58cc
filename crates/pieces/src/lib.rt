// One of several constant texts, which stand in one string with a bar between each two.
#![tactic(auto)]

// Standard output, as a file to write to.
pub const STDOUT_FILENO: i32 = 1;

const BAR: u8 = b'|';

// Writes the n-th piece, counted from 0, to a file; where there are fewer, the last one.
pub fn write(fd: i32, words: &[u8], n: usize) {
    let mut piece = words;
    for (i, next) in words.split(|b| *b == BAR).enumerate() {
        piece = next;
        if i == n {
            break;
        }
    }
    io::write_all(fd, piece);
}

// A batch of texts on standard input, each as its length in four bytes, big-endian, and its bytes; for comparison with the second program.
#![tactic(auto)]

ghost use Rattle.std.specs.Prelude.{◌≡◌, None, ◌<◌, length};
ghost use Rattle.batch.specs.Held.{Held};

const STDIN_FILENO: i32 = 0;

pub const STDOUT_FILENO: i32 = 1;

pub const STDERR_FILENO: i32 = 2;

// Says that a text could not be read, as it is cut off or longer than the buffer, and that no other is.
fn unread() -> Option<usize>
    ensures { result ≡ None }
{
    io::write_all(
        STDERR_FILENO,
        b"a text of the batch is cut off, or longer than the buffer\n",
    );
    None
}

// Reads n bytes, where the input and the buffer have so many.
fn read_text(text: &mut [u8], n: usize) -> Option<usize>
    ensures { Held (length text.new) result }
{
    if text.len() < n || io::read_full(STDIN_FILENO, &mut text[..n]) < n {
        return unread();
    }
    Some(n)
}

// Reads the next text to the front of the buffer: the number of its bytes, where there is one that can be read.
fn next_text(text: &mut [u8]) -> Option<usize>
    ensures { Held (length text.new) result }
{
    let mut head = [0u8; 4];
    match io::read_full(STDIN_FILENO, &mut head) {
        0 => None,
        4 => read_text(text, u32::from_be_bytes(head) as usize),
        _ => unread(),
    }
}

// Hands on each text of the batch, from the front of the buffer, until none is left, one cannot be read, or `answer` says that no other is wanted.
// A proved loop has to end, so it has a number of turns that no batch uses up.
pub fn answer_each<F: FnMut(&[u8]) -> bool>(text: &mut [u8], mut answer: F)
    requires { F.IsAlwaysCallable answer }
{
    for _ in 0..u64::MAX {
        let Some(n) = next_text(text) else {
            return;
        };
        if !answer(&text[..n]) {
            return;
        }
    }
}

// The line of a refused text.
pub fn write_refused(number: u8, place: usize) {
    io::write_all(STDOUT_FILENO, b"refused ");
    io::print_decimal(STDOUT_FILENO, u64::from(number));
    io::write_all(STDOUT_FILENO, b" ");
    io::print_decimal(STDOUT_FILENO, place as u64);
    io::write_all(STDOUT_FILENO, b"\n");
}

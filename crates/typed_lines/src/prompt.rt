// The prompt: a mark before each line that is typed; before one from a file, with the line, so that what is written reads as if it were typed.
use sentences::write;
use std::io::{IsTerminal, Stdin};

// Whether standard input is a terminal.
pub fn is_terminal(stdin: &Stdin) -> bool {
    stdin.is_terminal()
}

// Before a line is read.
pub fn ask(terminal: bool) {
    if terminal {
        write::text(b"> ");
    }
}

// Once it is read.
pub fn echo(terminal: bool, line: &[u8]) {
    if !terminal {
        write::text(b"> ");
        write::part(line, 0, line.len());
        write::text(b"\n");
    }
}

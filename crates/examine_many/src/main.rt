// Examines the texts of a batch: writes for each the line that examine writes first. For comparison with the second program.
#![tactic(auto)]

use batch::STDOUT_FILENO;

// One text.
fn answer(text: &[u8]) {
    match answering::decide(text) {
        Ok(()) => {
            io::write_all(STDOUT_FILENO, b"loads\n");
        }
        Err(r) => batch::write_refused(r.number, r.place),
    }
}

fn main() {
    let mut text = io::large_buffer();
    batch::answer_each(&mut text, |text| {
        answer(text);
        true
    });
}

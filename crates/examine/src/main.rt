// Examines one guideline: reads any bytes from standard input and writes `refused N P` or `loads`; then, for people, of a refusal the line and what is wrong, and of a guideline that loads the names that are read as text.
#![tactic(auto)]

use bare_names::told;
use limits::Guideline;
use sentences::write;
use spot::seen::Seen;

const STDIN_FILENO: i32 = 0;

fn examine(text: &[u8], s: Seen) {
    if Guideline::LIMIT < s.total {
        told_refusal::too_long(text, s);
        return;
    }
    match answering::decide(text) {
        Ok(()) => {
            write::text(b"loads\n");
            told::list(text);
        }
        Err(r) => told_refusal::tell(text, r.number, r.place, s),
    }
}

fn main() {
    let mut kept = io::large_buffer();
    let t = told_refusal::take(STDIN_FILENO, &mut kept);
    examine(&kept[..t.kept], t.seen);
}

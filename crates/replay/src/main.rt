// Replays the scripts of a batch (docs/REPLAY.md): reads them from standard input and writes the answers of the public calls.
#![tactic(auto)]

mod calls;
mod listing;
mod scripts;
mod shown;

// Room for the longest script: for more than sixty of the longest guidelines.
fn room() -> [u8; 1048576] {
    [0; 1048576]
}

fn main() {
    let mut text = room();
    let mut out = io::large_buffer();
    batch::answer_each(&mut text, |script| scripts::replay(script, &mut out));
}

// The beginning of what is told of a refusal, and what 7 and 8 mean.
use pieces::STDOUT_FILENO;
use sentences::write;

pub fn head(n: u8) {
    write::text(b"Refused with ");
    write::number(n as usize);
    write::text(b": ");
}

// The place of a refusal among the texts below.
fn place_of(n: u8) -> usize {
    match n {
        7 => 0,
        8 => 1,
        _ => 2,
    }
}

// A refusal that is not by the value, time or trigger that was given.
pub fn other(n: u8) {
    pieces::write(
        STDOUT_FILENO,
        b"an exception has stopped the engine. Start again to go on.\n|there is none.\n|it can't be done.\n",
        place_of(n),
    );
}

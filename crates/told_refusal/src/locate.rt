// Where the place is: line and column, the line itself, and a mark under the place.
use sentences::write;
use spot::{lines, show};

pub fn head(number: u8, place: usize) {
    write::text(b"refused ");
    write::number(usize::from(number));
    write::text(b" ");
    write::number(place);
    write::text(b"\n");
}

pub fn at(line: usize, column: usize) {
    write::text(b"line ");
    write::number(line);
    write::text(b", column ");
    write::number(column);
    write::text(b":\n");
}

// Two points where the line was cut.
fn points(cut: bool) {
    if cut {
        write::text(b"..");
    }
}

// The line of a place in the text, as far as it is shown, and the mark below the place.
pub fn line(text: &[u8], place: usize) {
    if text.len() < place {
        return;
    }
    let begin = lines::begin(text, place);
    let end = lines::end(text, place);
    let from = show::from(begin, place);
    let to = show::to(place, end);
    points(begin < from);
    write::part(text, from, to);
    points(to < end);
    write::text(b"\n");
    if begin < from {
        write::blanks(2);
    }
    write::blanks(place.saturating_sub(from));
    write::text(b"^\n");
}

// What a value is that was given, and what a data item takes, in words.
ghost use Rattle.std.specs.Prelude.{◌≡◌};
ghost use Rattle.advise.specs.CallsTold.{elements_of};

use pieces::STDOUT_FILENO;
use sentences::write;
use typed_value::{Kind, Room};

// The place of an element, given by its tag, among the texts below.
fn place_of(tag: u32) -> usize {
    match tag {
        Kind::TRUTH => 0,
        Kind::INTEGER => 1,
        Kind::REAL => 2,
        Kind::TEXT => 3,
        _ => 4,
    }
}

// An element, by its tag.
fn element(tag: u32) {
    pieces::write(
        STDOUT_FILENO,
        b"a truth value|an integer|a real|a text|unknown",
        place_of(tag),
    );
}

// How many elements a value of this shape has: it is one, or a list.
pub fn count(shape: u32) -> usize
    ensures { result ≡ elements_of shape }
{
    match shape as usize {
        0 => 1,
        n if Room::CELLS < n => 0,
        n => n - 1,
    }
}

// The elements of a list.
fn list(tags: &[u32], n: usize) {
    for i in 0..n {
        if 0 < i {
            write::text(b", ");
        }
        element(blocks::cell(tags, 1 + i));
    }
}

// A value, by its tags.
pub fn tell(tags: &[u32]) {
    let shape = blocks::cell(tags, 0);
    let n = count(shape);
    if shape == 0 {
        element(blocks::cell(tags, 1));
        return;
    }
    if n == 0 {
        write::text(b"an empty list");
        return;
    }
    write::text(b"a list of ");
    list(tags, n);
}

// The number of the declared type boolean.
const BOOLEAN: usize = 3;

// What a data item takes, by the number of its declared type in docs/TABLES.md: a boolean one the words that are typed for it.
pub fn declared(n: usize) {
    if n == BOOLEAN {
        write::text(b"yes or no, for it is boolean");
    } else {
        type_words::declared(n);
    }
}

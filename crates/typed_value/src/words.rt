// The words that are values.
ghost use Rattle.std.specs.Prelude.{◌≡◌, ◌||◌, ◌<◌};
ghost use Rattle.typed_value.specs.Onward.{Onward};
ghost use Rattle.typed_value.specs.Lexemes.{word_at};
ghost use Rattle.typed_value.specs.Elements.{“yes”, “no”, word_from};
ghost use Rattle.typed_value.specs.Readings.{element_of, text_after};

use crate::elements::{Element, Kind, found, wrong};
use crate::lexemes::{is_word, word_end};
use crate::steps::Slip;
use crate::texts::copy;

// Whether a word is one of the two that guidelines have for a boolean item, and that are texts there.
fn is_answer(s: &[u8], from: usize, to: usize) -> bool
    ensures { result ≡ (word_at s.now from to “yes” || word_at s.now from to “no”) }
{
    is_word(s, from, to, b"yes") || is_word(s, from, to, b"no")
}

// The word that stands here, as the i-th element.
pub fn word(s: &[u8], at: usize, bytes: &mut [u8], i: usize) -> Element
    requires { i < 20 }
    ensures { Onward s.now at result.place × (result ≡ element_of i (word_from s.now at)) × (bytes.new ≡ text_after i (word_from s.now at) bytes.old) }
{
    let to = word_end(s, at);
    if is_word(s, at, to, b"unknown") {
        return found(Kind::UNKNOWN, 0, to);
    }
    if is_word(s, at, to, b"true") {
        return found(Kind::TRUTH, 1, to);
    }
    if is_word(s, at, to, b"false") {
        return found(Kind::TRUTH, 0, to);
    }
    if is_answer(s, at, to) {
        return found(Kind::TEXT, copy(s, at, to - at, bytes, i), to);
    }
    wrong(at, Slip::Bare)
}

// Blanks, words and what stands between quotes: where they end. No place that is answered lies behind the text.
ghost use Rattle.std.specs.Prelude.{◌≡◌, ℕ, ◌<◌, Bool};
ghost use Rattle.typed_value.specs.Onward.{Onward};
ghost use Rattle.typed_value.specs.Lexemes.{after_of, past, blankb, digitb, letterb, word_at};
ghost use Rattle.typed_value.specs.Texts.{close_of};

use parts::byte;

// The place behind one byte.
pub fn after(s: &[u8], at: usize) -> usize
    ensures { Onward s.now at result × (result ≡ after_of s.now at) }
{
    if at < s.len() { at + 1 } else { at }
}

fn is_blank(b: u8) -> bool
    ensures { result ≡ blankb b }
{
    matches!(b, b' ' | b'\t' | b'\r')
}

// The first place from here on whose byte does not pass the test, or the end.
fn past<F: Fn(u8) -> bool>(s: &[u8], at: usize, passes: F) -> usize
    requires { F.IsAlwaysCallable passes }
    ensures onward { Onward s.now at result }
    ensures told { (p : ℕ → Bool) → ((b : ℕ) (r : Bool) → b < 256 → F.post passes b r → r ≡ p b) → result ≡ past p s.now at }
{
    for p in at..s.len() {
        if !passes(s[p]) {
            return p;
        }
    }
    at.max(s.len())
}

// The first place from here on where no blank stands.
pub fn skip(s: &[u8], at: usize) -> usize
    ensures { Onward s.now at result × (result ≡ past blankb s.now at) }
{
    past(s, at, is_blank)
}

pub fn is_digit(b: u8) -> bool
    ensures { result ≡ digitb b }
{
    matches!(b, b'0'..=b'9')
}

// What a bare word is made of.
pub fn is_letter(b: u8) -> bool
    ensures { result ≡ letterb b }
{
    matches!(b, b'a'..=b'z' | b'A'..=b'Z' | b'0'..=b'9' | b'_')
}

// The place behind the bare word that stands here.
pub fn word_end(s: &[u8], at: usize) -> usize
    ensures { Onward s.now at result × (result ≡ past letterb s.now at) }
{
    past(s, at, is_letter)
}

// Whether the word stands between two places.
pub fn is_word(s: &[u8], from: usize, to: usize, word: &[u8]) -> bool
    ensures { result ≡ word_at s.now from to word.now }
{
    if to < from || to - from != word.len() {
        return false;
    }
    for (i, b) in word.iter().enumerate() {
        if byte(s, from + i) != *b {
            return false;
        }
    }
    true
}

// The place of the quote that closes what stands from here on, behind its opening quote; or the end. Behind a backslash none closes.
pub fn close(s: &[u8], from: usize, quote: u8) -> usize
    ensures { Onward s.now from result × (result ≡ close_of quote s.now from) }
{
    let mut before = quote;
    for p in from..s.len() {
        if before != b'\\' && s[p] == quote {
            return p;
        }
        before = s[p];
    }
    from.max(s.len())
}

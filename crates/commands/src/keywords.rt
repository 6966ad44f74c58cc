// The words that commands begin with.
ghost use Rattle.std.specs.Prelude.{◌≡◌};
ghost use Rattle.commands.specs.Words.{keyword_of};

use typed_value::lexemes::is_word;

#[derive(Clone, Copy, PartialEq, Eq)]
pub enum Keyword {
    Run,
    Rows,
    Time,
    Tree,
    Trigger,
    Confirm,
    Asked,
    Why,
    Help,
    Quit,
    None,
}

// The keyword that stands between two places.
#[tactic(auto, unfolding(crate::specs::Words::keyword_of))]
pub fn keyword_at(s: &[u8], from: usize, to: usize) -> Keyword
    ensures { result ≡ keyword_of s.now from to }
{
    if is_word(s, from, to, b"run") {
        Keyword::Run
    } else if is_word(s, from, to, b"rows") {
        Keyword::Rows
    } else if is_word(s, from, to, b"time") {
        Keyword::Time
    } else if is_word(s, from, to, b"tree") {
        Keyword::Tree
    } else if is_word(s, from, to, b"trigger") {
        Keyword::Trigger
    } else if is_word(s, from, to, b"confirm") {
        Keyword::Confirm
    } else if is_word(s, from, to, b"asked") {
        Keyword::Asked
    } else if is_word(s, from, to, b"why") {
        Keyword::Why
    } else if is_word(s, from, to, b"help") {
        Keyword::Help
    } else if is_word(s, from, to, b"quit") {
        Keyword::Quit
    } else {
        Keyword::None
    }
}

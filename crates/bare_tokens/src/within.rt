// What a token stands in: the expressions behind a word of an attribute, and the brackets that are open there.
ghost use Rattle.std.specs.Prelude.{◌≡◌};
ghost use Rattle.bare_tokens.specs.Bare as bare;

use limits::Brackets;
use parts::byte;
use terminals::Terminal;

// No terminal.
// stays: promise of `before`, whose `none` is this number
pub const NONE: u8 = 255;

// The words of the attributes that have expressions.
fn has_expressions(k: u8) -> bool
    ensures { result ≡ bare.has_expressions k }
{
    matches!(
        k,
        Terminal::CAPTION
            | Terminal::DESCRIPTION
            | Terminal::PRECONDITION
            | Terminal::POSTCONDITION
            | Terminal::TERMINATE
            | Terminal::WAIT_CONDITION
    )
}

// The terminal before the token i.
pub fn before(kinds: &[u8], i: usize) -> u8
    ensures { result ≡ bare.before kinds.now i }
{
    if i == 0 { NONE } else { byte(kinds, i - 1) }
}

// The word of the attribute, so many brackets open, so many of them around all assignments.
#[derive(Clone, Copy)]
pub struct Within {
    pub word: u8,
    pub depth: usize,
    pub base: usize,
}

impl Within {
    pub fn behind(word: u8) -> Self
        ensures { result ≡ bare.behind word }
    {
        Self {
            word,
            depth: 0,
            base: 0,
        }
    }

    // Whether a bracket opens behind `postcondition ::`: it is around all assignments.
    fn is_around(self, last: u8) -> bool
        ensures { result ≡ bare.is_around self last }
    {
        self.word == Terminal::POSTCONDITION && last == Terminal::DOUBLE_COLON
    }

    // A bracket more.
    fn opened(self, last: u8) -> Self
        ensures { result ≡ bare.opened self last }
    {
        if Brackets::LIMIT < self.depth {
            self
        } else if self.is_around(last) {
            Self {
                depth: 1,
                base: 1,
                ..self
            }
        } else {
            Self {
                depth: self.depth + 1,
                ..self
            }
        }
    }

    fn closed(self) -> Self
        ensures { result ≡ bare.closed self }
    {
        Self {
            depth: self.depth.saturating_sub(1),
            ..self
        }
    }

    // One token more, behind the terminal `last`.
    pub fn on(self, k: u8, last: u8) -> Self
        ensures { result ≡ bare.on self k last }
    {
        match k {
            _ if has_expressions(k) => Self::behind(k),
            Terminal::SEMICOLON => Self::behind(NONE),
            Terminal::LEFT_PARENTHESIS | Terminal::LEFT_BRACKET => self.opened(last),
            Terminal::RIGHT_PARENTHESIS | Terminal::RIGHT_BRACKET => self.closed(),
            _ => self,
        }
    }
}

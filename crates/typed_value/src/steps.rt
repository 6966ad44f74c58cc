// One step of reading: the place that it came to, and what is wrong there.
ghost use Rattle.std.specs.Prelude.{◌≡◌};
ghost use Rattle.typed_value.specs.Lexemes.{fine};

// What is wrong.
#[derive(Clone, Copy, PartialEq, Eq)]
pub enum Slip {
    // nothing
    Fine,
    // there is no value here
    Missing,
    // a bare word
    Bare,
    // a text without its closing quote
    Unclosed,
    // no digits before or behind the point, or behind the minus
    Digits,
    // more than three digits behind the point
    Decimals,
    // neither a comma nor a closing bracket behind an element
    Separator,
    // a list in a list
    Nested,
    // more elements than can be handed on
    Many,
    // something behind the value
    Behind,
}

#[derive(Drop)]
pub struct Step {
    pub place: usize,
    pub slip: Slip,
}

pub fn reached(place: usize, slip: Slip) -> Step
    ensures { result ≡ record { place = place; slip = slip } }
{
    Step { place, slip }
}

pub fn is_fine(slip: Slip) -> bool
    ensures { result ≡ fine slip }
{
    slip == Slip::Fine
}

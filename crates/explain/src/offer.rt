// What could stand at a token of a guideline, behind the tokens before it.
ghost use Rattle.std.specs.Prelude.{◌≤◌, ◌<◌, length, take, MatchOption};
ghost use Rattle.paper_guideline.specs.Limits.{token_limit};
ghost use Rattle.paper_grammar.specs.Nonterminals.{⟨process⟩};
ghost use Rattle.paper_grammar.specs.Sentence.{Guideline, Begins};
ghost use Rattle.explain.specs.Offer.{Tells, Behind, Alone, Offered, Before};

use grammar::{Answer, Start};
use limits::TokenList;
use terminals::Terminal;
use token_tests::edition::is_word;

// Whether some guideline begins with these tokens.
fn begins(kinds: &[u8]) -> bool
    ensures { length kinds.now ≤ token_limit → Tells (Begins ⟨process⟩ kinds.now) result }
{
    match grammar::read(kinds, Start::Process) {
        Answer::Accepted => true,
        Answer::Refused(i) => i == kinds.len(),
        Answer::Unread => false,
    }
}

// Whether these tokens are a guideline.
fn ends(kinds: &[u8]) -> bool
    ensures { length kinds.now ≤ token_limit → Tells (Guideline kinds.now) result }
{
    matches!(grammar::read(kinds, Start::Process), Answer::Accepted)
}

// Whether the terminal k can stand at the token i: some guideline begins with the first i tokens and k.
pub fn may_stand(kinds: &[u8], i: usize, k: u8) -> bool
    ensures { i ≤ length kinds.now → i < token_limit → Tells (Behind (take i kinds.now) k) result }
{
    if kinds.len() < i || TokenList::LIMIT <= i {
        return false;
    }
    let mut tried = [0u8; TokenList::LIMIT];
    tried[..i].copy_from_slice(&kinds[..i]);
    tried[i] = k;
    begins(&tried[..=i])
}

// Whether a guideline can end before the token i.
pub fn may_end(kinds: &[u8], i: usize) -> bool
    ensures { i ≤ length kinds.now → i ≤ token_limit → Tells (Guideline (take i kinds.now)) result }
{
    i <= kinds.len() && ends(&kinds[..i])
}

// Which of the tokens stands at a place or first behind it.
pub fn token_at(places: &[usize], place: usize) -> Option<usize>
    ensures { MatchOption result (Before places.now (length places.now) place (length places.now)) (λ i. (i < length places.now) × Before places.now (length places.now) place i) }
{
    places.iter().position(|p| place <= *p)
}

// .. an atom of a certain spelling, which is offered only where not every name can stand.
fn stands_alone(kinds: &[u8], i: usize, k: u8) -> bool
    ensures { i ≤ length kinds.now → i < token_limit → Tells (Alone (take i kinds.now) k) result }
{
    !may_stand(kinds, i, Terminal::OTHER_ATOM) && may_stand(kinds, i, k)
}

// Whether the terminal k is worth offering at the token i: it can stand there, this edition runs it, and it is not one name of many.
pub fn is_offered(kinds: &[u8], i: usize, k: u8) -> bool
    ensures { i ≤ length kinds.now → i < token_limit → Tells (Offered (take i kinds.now) k) result }
{
    match k {
        _ if is_word(k) => false,
        Terminal::YES_OR_NO | Terminal::DATA_TYPE => stands_alone(kinds, i, k),
        _ => may_stand(kinds, i, k),
    }
}

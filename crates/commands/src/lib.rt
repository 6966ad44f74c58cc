// What a line that is typed asks for. Places are those of the line, which has no newline.
#![tactic(auto)]

mod keywords;
mod names;
mod times;

ghost use Rattle.std.specs.Prelude.{◌≡◌};
ghost use Rattle.commands.specs.Commands.{alone_of, only_name, on_name, run_of, time_of, by_way, by_word, command_of};

use keywords::Keyword;
pub use names::Name;
use names::name_at;
use parts::byte;
use times::Amount;
use typed_value::lexemes::{after, skip, word_end};

// A name is told by where it begins and ends, a value by where it begins.
#[derive(Clone, Copy)]
pub enum Command {
    // a blank line
    Nothing,
    // NAME = VALUE
    Give(usize, usize, usize),
    // as far as it goes; so many cycles
    Run,
    RunFor(u64),
    Confirm(usize, usize),
    Trigger(usize, usize),
    // the engine time: in seconds; by how many it goes on, or back
    Time(u64),
    Later(u64),
    Earlier(u64),
    Tree,
    Asked,
    Rows(usize, usize),
    Why(usize, usize),
    Help,
    Quit,
    // none of these, from this place on
    Unclear(usize),
}

// A command that nothing follows.
#[tactic(auto, unfolding(crate::specs::Commands::alone_of))]
fn alone(s: &[u8], at: usize, c: Command) -> Command
    ensures { result ≡ alone_of s.now at c }
{
    if at < s.len() {
        Command::Unclear(at)
    } else {
        c
    }
}

// A name that nothing follows; else where that is.
#[tactic(auto, unfolding(crate::specs::Commands::only_name))]
fn only_name(s: &[u8], at: usize) -> Name
    ensures { result ≡ only_name s.now at }
{
    let n = name_at(s, at);
    if !n.there {
        return n;
    }
    let p = skip(s, n.next);
    if p < s.len() { names::none(p) } else { n }
}

// A command on something that has a name.
#[tactic(auto, unfolding(crate::specs::Commands::on_name))]
fn on_name(s: &[u8], at: usize, k: Keyword) -> Command
    ensures { result ≡ on_name s.now at k }
{
    let n = only_name(s, at);
    if !n.there {
        return Command::Unclear(n.next);
    }
    match k {
        Keyword::Confirm => Command::Confirm(n.from, n.to),
        Keyword::Trigger => Command::Trigger(n.from, n.to),
        Keyword::Rows => Command::Rows(n.from, n.to),
        Keyword::Why => Command::Why(n.from, n.to),
        _ => Command::Unclear(at),
    }
}

#[tactic(auto, unfolding(crate::specs::Commands::run_of))]
fn run(s: &[u8], at: usize) -> Command
    ensures { result ≡ run_of s.now at }
{
    if s.len() <= at {
        return Command::Run;
    }
    let n = times::number(s, at);
    if n.next <= at {
        return Command::Unclear(at);
    }
    alone(s, skip(s, n.next), Command::RunFor(n.value))
}

// An engine time, or by how much it goes on or back.
#[tactic(auto, unfolding(crate::specs::Commands::time_of))]
fn time(s: &[u8], at: usize) -> Command
    ensures { result ≡ time_of s.now at }
{
    match byte(s, at) {
        b'+' => by(times::amount_at(s, after(s, at)), Way::On),
        b'-' => by(times::amount_at(s, after(s, at)), Way::Back),
        _ => by(times::amount_at(s, at), Way::To),
    }
}

// What is done with an amount of time: it is the time, it goes on by it, or back.
#[derive(Drop)]
enum Way {
    To,
    On,
    Back,
}

fn by(a: Amount, way: Way) -> Command
    ensures { result ≡ by_way a way }
{
    if !a.there {
        return Command::Unclear(a.next);
    }
    match way {
        Way::To => Command::Time(a.seconds),
        Way::On => Command::Later(a.seconds),
        Way::Back => Command::Earlier(a.seconds),
    }
}

// The command whose word stands between two places.
#[tactic(auto, unfolding(crate::specs::Commands::by_word))]
fn by_word(s: &[u8], from: usize, to: usize) -> Command
    ensures { result ≡ by_word s.now from to }
{
    let at = skip(s, to);
    let k = keywords::keyword_at(s, from, to);
    match k {
        Keyword::Run => run(s, at),
        Keyword::Time => time(s, at),
        Keyword::Tree => alone(s, at, Command::Tree),
        Keyword::Asked => alone(s, at, Command::Asked),
        Keyword::Help => alone(s, at, Command::Help),
        Keyword::Quit => alone(s, at, Command::Quit),
        Keyword::None => Command::Unclear(from),
        Keyword::Confirm | Keyword::Trigger | Keyword::Rows | Keyword::Why => on_name(s, at, k),
    }
}

// What a line asks for. A name and an equals sign give a value, whatever the name is.
#[tactic(auto, unfolding(crate::specs::Commands::command_of))]
pub fn read(s: &[u8]) -> Command
    ensures { result ≡ command_of s.now }
{
    let p = skip(s, 0);
    if s.len() <= p {
        return Command::Nothing;
    }
    let n = name_at(s, p);
    let q = skip(s, n.next);
    if byte(s, q) == b'=' && n.there {
        return Command::Give(n.from, n.to, after(s, q));
    }
    by_word(s, p, word_end(s, p))
}

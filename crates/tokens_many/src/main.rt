// The tokens of the texts of a batch, a line for each:
// `refused N P`, or `tokens` and ` K:P:L` for each token, with its kind, place and length. For comparison with the second program.
#![tactic(auto)]

use batch::STDOUT_FILENO;
use limits::TokenList;
use terminals::Terminal;
use tokens::Read;

// The bytes of a token.
fn token(text: &[u8], place: usize, len: usize) -> &[u8] {
    let rest = text.get(place..).unwrap_or(text);
    rest.get(..len).unwrap_or(rest)
}

// Only an exponent has one of these in a float.
fn is_power(b: u8) -> bool {
    matches!(b, b'd' | b'e' | b'D' | b'E')
}

// The letter of a token's kind.
fn letter(kind: u8, token: &[u8]) -> u8 {
    match kind {
        0..=71 => b'w',
        72..=94 => b'y',
        95..=97 if token.starts_with(b"'") => b'q',
        95..=97 => b'a',
        Terminal::INTEGER => b'i',
        Terminal::FLOAT if token.iter().any(|b| is_power(*b)) => b'x',
        Terminal::FLOAT => b'f',
        _ => b's',
    }
}

// One token: a blank, its kind, place and length.
fn write_token(k: u8, place: usize, len: usize) {
    io::write_all(STDOUT_FILENO, &[b' ', k, b':']);
    io::print_decimal(STDOUT_FILENO, place as u64);
    io::write_all(STDOUT_FILENO, b":");
    io::print_decimal(STDOUT_FILENO, len as u64);
}

fn write_tokens(
    text: &[u8],
    kinds: &[u8; TokenList::LIMIT],
    places: &[usize; TokenList::LIMIT],
    lengths: &[usize; TokenList::LIMIT],
    count: usize,
) {
    io::write_all(STDOUT_FILENO, b"tokens");
    for (kind, (place, len)) in kinds.iter().zip(places.iter().zip(lengths)).take(count) {
        write_token(letter(*kind, token(text, *place, *len)), *place, *len);
    }
    io::write_all(STDOUT_FILENO, b"\n");
}

// One text: its tokens, or its refusal.
fn answer(text: &[u8]) {
    let mut kinds = [0u8; TokenList::LIMIT];
    let mut places = [0usize; TokenList::LIMIT];
    let mut lengths = [0usize; TokenList::LIMIT];
    match tokens::tokens(text, &mut kinds, &mut places, &mut lengths) {
        Read::Tokens(n) => write_tokens(text, &kinds, &places, &lengths, n),
        Read::Refused(number, place) => batch::write_refused(number, place),
        Read::Short => {}
    }
}

fn main() {
    let mut text = io::large_buffer();
    batch::answer_each(&mut text, |text| {
        answer(text);
        true
    });
}

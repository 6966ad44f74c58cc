// What is wrong, in a sentence.
use crate::refused_name::of_name;
use crate::refused_type::of_expression;
use explain::{offer, quote, spelling};
use leaves::{cell, fits};
use limits::{Refusal, TokenList};
use parts::byte;
use sentences::write;
use spot::seen::Seen;
use terminals::Terminal;
use token_tests::limit_at;
use token_tests::sizes::Limit;
use tokens::Read;

// Refusal 1.
fn of_bytes(seen: Seen) {
    if seen.high {
        write::text(
            b"This byte is over 127. A guideline is written in plain ASCII: letters, digits and signs, without accents or typographic quotes.\n",
        );
    } else {
        write::text(b"The text has ");
        write::number(seen.total);
        write::text(b" bytes; a guideline has at most 16,384.\n");
    }
}

// Refusal 2.
fn of_start(b: u8) {
    if quote::is_quote(b) {
        write::text(b"This quote is never closed.\n");
    } else {
        write::text(b"Nothing of the language starts with this.\n");
    }
}

// Every terminal from one number up to another that is worth offering at the token i, as it is written.
fn between(kinds: &[u8], i: usize, from: u8, to: u8) {
    let t = spelling::spellings();
    for k in from..to {
        if offer::is_offered(kinds, i, k) {
            write::text(b"  ");
            write::text(spelling::spelling(&t, k));
        }
    }
}

// The symbols, names, numbers and texts first, then the reserved words.
fn offers(kinds: &[u8], i: usize) {
    between(kinds, i, Terminal::DOUBLE_COLON, Terminal::COUNT);
    between(kinds, i, 0, Terminal::DOUBLE_COLON);
    write::text(b"\n");
}

// Refusal 3, at the token i.
fn of_grammar(kinds: &[u8], i: usize) {
    write::text(b"This cannot stand here. What could:");
    if offer::may_end(kinds, i) {
        write::text(b"  the end of the text");
    }
    offers(kinds, i);
}

// .. and behind the last token.
fn of_end(kinds: &[u8]) {
    write::text(b"The guideline ends too early. What could come:");
    offers(kinds, kinds.len());
}

// The token of so many bytes at a place.
fn token(text: &[u8], place: usize, size: usize) {
    if fits(text, place, size) {
        write::part(text, place, place + size);
    }
}

// Refusal 10, at a token of the terminal k and of so many bytes.
fn of_edition(text: &[u8], k: u8, place: usize, size: usize) {
    match k {
        Terminal::TASK => write::text(b"A task that is no plan, enquiry or action"),
        Terminal::COLON => write::text(b"A name with a colon"),
        Terminal::FLOAT => write::text(b"A number with an exponent"),
        _ => token(text, place, size),
    }
    write::text(b" is part of the language, but this edition does not run it.\n");
}

// Refusal 6, at a token.
fn of_token(text: &[u8], k: u8, place: usize, size: usize) {
    match limit_at(text, k, place, size) {
        Limit::Text => write::text(
            b"A name or text has at most 48 bytes, its quotes not counted.\n",
        ),
        Limit::Integer => write::text(b"Integers lie within plus or minus 2,000,000.\n"),
        Limit::Real => write::text(b"Reals lie within plus or minus 2,000,000.\n"),
        Limit::Decimals => write::text(b"A number has at most three digits after the point.\n"),
        Limit::Within => write::text(
            b"This expression is more than 24 deep, or one of its lists has more than 16 elements.\n",
        ),
    }
}

// Refusal 6, behind the last token.
fn of_counts() {
    write::text(
        b"The guideline has more than 32 tasks, 64 data items, 1,024 parts of expressions, 256 assignments or 128 sources.\n",
    );
}

// Refusal 6, where the tokens are not even counted out.
fn of_tokens(text: &[u8], place: usize) {
    if place < text.len() {
        write::text(b"More than 24 brackets are open here.\n");
    } else {
        write::text(
            b"The guideline has more than 4,096 tokens: words, numbers, texts and signs.\n",
        );
    }
}

// A refusal at a token, or behind the last.
fn of_token_at(
    text: &[u8],
    kinds: &[u8],
    places: &[usize],
    lengths: &[usize],
    number: u8,
    place: usize,
) {
    match (number, offer::token_at(places, place)) {
        (Refusal::GRAMMAR, Some(i)) => of_grammar(kinds, i),
        (Refusal::GRAMMAR, None) => of_end(kinds),
        (Refusal::NAME, _) => of_name(text, place),
        (Refusal::TYPE, Some(i)) => of_expression(text, kinds, places, i, place),
        (Refusal::LIMIT, Some(i)) => of_token(text, byte(kinds, i), place, cell(lengths, i)),
        (Refusal::LIMIT, None) => of_counts(),
        (Refusal::LEFT_OUT, Some(i)) => of_edition(text, byte(kinds, i), place, cell(lengths, i)),
        _ => {}
    }
}

// A refusal of a text that has tokens.
fn of_tokens_at(text: &[u8], number: u8, place: usize) {
    let mut kinds = [0u8; TokenList::LIMIT];
    let mut places = [0usize; TokenList::LIMIT];
    let mut lengths = [0usize; TokenList::LIMIT];
    match tokens::tokens(text, &mut kinds, &mut places, &mut lengths) {
        Read::Tokens(n) => {
            of_token_at(
                text,
                &kinds[..n],
                &places[..n],
                &lengths[..n],
                number,
                place,
            );
        }
        Read::Refused(_, _) => of_tokens(text, place),
        Read::Short => {}
    }
}

// The sentence on the refusal `number` at a place.
pub fn why(text: &[u8], number: u8, place: usize, seen: Seen) {
    match number {
        Refusal::TEXT => of_bytes(seen),
        Refusal::LEXICAL => of_start(byte(text, place)),
        _ => of_tokens_at(text, number, place),
    }
}

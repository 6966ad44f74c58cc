// Types and operators in words: how they are called, and what they take by section 11.
#![tactic(auto)]

use parts::{Code, Declared, Family};
use sentences::write;

// A type, by its letter.
pub fn kind(letter: u8) {
    write::text(match letter {
        b'T' => b"a text",
        b'I' => b"an integer",
        b'R' => b"a real",
        b'B' => b"a truth value",
        b't' => b"a list of texts",
        b'i' => b"a list of integers",
        b'r' => b"a list of reals",
        b'a' => b"an empty list",
        _ => b"what has no type",
    });
}

// What a data item takes, by the number of its declared type.
pub fn declared(d: usize) {
    write::text(match u32::try_from(d) {
        Ok(Declared::TEXT) => b"a text",
        Ok(Declared::INTEGER) => b"an integer",
        Ok(Declared::BOOLEAN) => b"a text, for it is boolean",
        Ok(Declared::DATETIME) => b"a number, for it is a datetime",
        Ok(Declared::DATE) => b"a number, for it is a date",
        Ok(Declared::TIME) => b"a number, for it is a time",
        Ok(Declared::REAL) => b"a number",
        Ok(Declared::SETOF_TEXT) => b"a list of texts",
        Ok(Declared::SETOF_INTEGER) => b"a list of integers",
        Ok(Declared::SETOF_REAL) => b"a list of numbers",
        _ => b"nothing",
    });
}

// An operator that stands between its operands.
fn sign(c: usize) -> &'static [u8] {
    match c {
        Code::PLUS => b"+",
        Code::TIMES => b"*",
        Code::DIVIDE => b"/",
        Code::GREATER => b">",
        Code::LESS => b"<",
        Code::GREATER_OR_EQUAL => b">=",
        Code::LESS_OR_EQUAL => b"<=",
        Code::EQUAL => b"=",
        Code::NOT_EQUAL => b"!=",
        Code::AND => b"and",
        Code::OR => b"or",
        Code::INCLUDES => b"includes",
        Code::ONEOF => b"oneof",
        _ => b"-",
    }
}

// An operator, by the code of its part; a minus is spelt the same with one operand and with two.
pub fn spelt(c: usize) {
    write::text(match c {
        Code::IF => b"if",
        Code::ISKNOWN => b"isknown",
        Code::NOT => b"not",
        Code::COUNT => b"count",
        Code::SUM => b"sum",
        Code::MAX => b"max",
        Code::MIN => b"min",
        Code::NTH => b"nth",
        Code::IS_DORMANT => b"is_dormant",
        Code::IS_IN_PROGRESS => b"is_in_progress",
        Code::IS_DISCARDED => b"is_discarded",
        Code::IS_COMPLETED => b"is_completed",
        _ => sign(c),
    });
}

// What it takes, by the list of allowed types that its code stands for.
pub fn takes(c: usize) {
    write::text(match c / Family::SIZE {
        0 | Family::ARITHMETIC | Family::DIVIDE => b"two numbers",
        Family::COMPARISON => b"two numbers, two texts, or two lists of the one or the other",
        Family::LOGIC => b"two truth values",
        Family::INCLUDES => b"a list of numbers or texts, and then one number or text",
        Family::ONEOF => b"one number or text, and then a list of such",
        Family::IF => b"a truth value, and then two values of one type",
        Family::NEGATE => b"a number",
        Family::ISKNOWN => b"one value",
        Family::NOT => b"a truth value",
        Family::COUNT => b"one list",
        Family::SUM => b"one list of numbers",
        Family::EXTREME => b"one list, of numbers or of texts",
        Family::NTH => b"an integer and then a list",
        _ => b"the name of a task, which is a text",
    });
}

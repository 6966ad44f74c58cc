// What is told beside the answer to a sheet, on standard error, and why the status is not 0.
use field_values::Refusal;
use parts::Declared;
use season_answer::counted;
use separated::Fault;

// Why the status is not 0 is written here.
const WHY: i32 = 4;

fn status(why: &[u8]) {
    io::write_all(WHY, why);
}

// Something of the sheet is refused.
pub fn refused() {
    status(b"r");
}

// The guideline is refused: number and place.
pub fn guideline(number: u8, place: usize) {
    status(b"g");
    aside::text(b"refused ");
    aside::number(number as u64);
    aside::text(b" ");
    aside::number(place as u64);
    aside::text(b"\n");
}

// There is no first line.
pub fn no_heading() {
    refused();
    aside::text(b"The sheet is empty: its first line has the names of data items.\n");
}

// Where: the line, and the field of it.
fn place(line: u64, field: usize) {
    aside::text(b"line ");
    aside::number(line);
    aside::text(b", column ");
    aside::number(counted(field));
}

fn fault_words(fault: u8) {
    let words: &[u8] = match fault {
        Fault::QUOTE_INSIDE => {
            b": there is a double quote inside a field that does not begin with one."
        }
        Fault::BEHIND_QUOTE => b": something stands behind the double quote that closes the field.",
        Fault::LONE_RETURN => b": there is a carriage return that no newline follows.",
        Fault::OPEN => b": the double quote that begins the field is never closed.",
        Fault::TOO_LONG => b": the line is longer than 16,384 bytes.",
        _ => b": the line has more than 128 fields.",
    };
    aside::text(words);
}

// The line is no record: from this field on, for this reason.
pub fn fault(line: u64, field: usize, why: u8) {
    refused();
    place(line, field);
    fault_words(why);
    aside::text(b" The line is not read.\n");
}

// It has another number of fields than there are columns.
pub fn fields(line: u64, fields: usize, columns: usize) {
    refused();
    aside::text(b"line ");
    aside::number(line);
    aside::text(b": the number of fields is ");
    aside::number(fields as u64);
    aside::text(b", that of columns ");
    aside::number(columns as u64);
    aside::text(b". The line is not read.\n");
}

fn type_words(declared: u32) {
    let words: &[u8] = match declared {
        Declared::TEXT => b"text",
        Declared::INTEGER => b"integer",
        Declared::BOOLEAN => b"boolean",
        Declared::DATETIME => b"datetime",
        Declared::DATE => b"date",
        Declared::TIME => b"time",
        Declared::REAL => b"real",
        Declared::SETOF_TEXT => b"setof_text",
        Declared::SETOF_INTEGER => b"setof_integer",
        _ => b"setof_real",
    };
    aside::text(words);
}

// How a value of the type is written.
fn form(declared: u32) {
    let words: &[u8] = match declared {
        Declared::INTEGER => b"12 or -3",
        Declared::SETOF_TEXT => b"[\"wet\", \"dry\"]",
        Declared::SETOF_INTEGER => b"[12, 3, 15]",
        Declared::SETOF_REAL => b"[1.5, 20]",
        _ => b"2.5 or 12",
    };
    aside::text(words);
}

fn reason(number: u8, field: &[u8], declared: u32) {
    aside::text(b": refused ");
    aside::number(number as u64);
    aside::text(b": ");
    aside::bytes(field);
    if number == Refusal::LIMIT {
        aside::text(
            b" passes a limit: numbers lie within 2,000,000 and have at most three digits behind the point, texts have at most 48 bytes and none over 127, lists 16 elements.",
        );
        return;
    }
    aside::text(b" is no ");
    type_words(declared);
    aside::text(b", which is written as ");
    form(declared);
    aside::text(b", or unknown.");
}

// A value is refused.
pub fn value(
    line: u64,
    column: usize,
    texts: &[u8],
    name: usize,
    number: u8,
    field: &[u8],
    declared: u32,
) {
    refused();
    place(line, column);
    aside::text(b", ");
    aside::name(texts, name);
    reason(number, field, declared);
    aside::text(b" The line is not run.\n");
}

// How far it is.
pub fn progress(lines: u64) {
    aside::text(b"schotterei: ");
    aside::number(lines);
    aside::text(b" lines so far\n");
}

// What is wrong with a value as it is typed.
use pieces::STDOUT_FILENO;
use sentences::write;
use typed_value::Slip;

// The place of a slip among the texts below.
fn place_of(slip: Slip) -> usize {
    match slip {
        Slip::Fine => 0,
        Slip::Missing => 1,
        Slip::Bare => 2,
        Slip::Unclosed => 3,
        Slip::Digits => 4,
        Slip::Decimals => 5,
        Slip::Separator => 6,
        Slip::Nested => 7,
        Slip::Many => 8,
        Slip::Behind => 9,
    }
}

fn sentence(slip: Slip) {
    pieces::write(
        STDOUT_FILENO,
        b"nothing is wrong.\n|a value has to stand here: a number, a text between double quotes, yes, no, unknown, or a list as [12, 3, 15].\n|this word is no value. Text is written between double quotes.\n|the double quote before this is never closed.\n|digits have to stand here; a real has some before its point and some behind it.\n|a real has at most three digits behind its point.\n|a comma or a closing bracket has to stand here.\n|a list holds no lists.\n|a list has at most 16 elements.\n|nothing may stand behind the value.\n",
        place_of(slip),
    );
}

// The slip, and the column where it is.
pub fn tell(slip: Slip, place: usize) {
    write::text(b"Column ");
    if place < usize::MAX {
        write::number(place + 1);
    }
    write::text(b": ");
    sentence(slip);
}

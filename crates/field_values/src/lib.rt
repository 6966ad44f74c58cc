// A field of a sheet, to cells and bytes as adding a value takes them, by the declared type of its data item. Nothing is guessed: a field that
// is no value of that type is refused.
#![tactic(auto)]

ghost use Rattle.std.specs.Prelude.{◌≡◌, true, false};
ghost use Rattle.field_values.specs.Reading as reading;
ghost use Rattle.field_values.specs.Reading.{field_by, field_as, FieldRead};

use parts::Declared;
use typed_value::lexemes::is_word;
use typed_value::{Slip, Typed};

#[derive(Drop)]
pub struct Refusal {}

// The number of a refusal.
// stays: promise of FieldRead, which has these numbers
impl Refusal {
    pub const NONE: u8 = 0;

    pub const LIMIT: u8 = 6;

    pub const TYPE: u8 = 9;
}

// Whether values of the type are texts (4.3).
fn is_text(declared: u32) -> bool
    ensures { result ≡ reading.text_type declared }
{
    declared == Declared::TEXT || declared == Declared::BOOLEAN
}

// Whether they are numbers with digits behind the point, or lists of these.
fn is_real(declared: u32) -> bool
    ensures { result ≡ reading.real_type declared }
{
    matches!(
        declared,
        Declared::DATETIME..=Declared::REAL | Declared::SETOF_REAL
    )
}

// Whether they are lists.
fn is_list(declared: u32) -> bool
    ensures { result ≡ reading.list-type declared }
{
    matches!(declared, Declared::SETOF_TEXT..=Declared::SETOF_REAL)
}

// The number of the refusal of what can't be read: beyond a limit, if it would be of the type, else not of the type.
fn number_of(slip: Slip, declared: u32) -> u8
    ensures { result ≡ reading.refusal_by slip declared }
{
    match slip {
        Slip::Decimals if is_real(declared) => Refusal::LIMIT,
        Slip::Many if is_list(declared) => Refusal::LIMIT,
        _ => Refusal::TYPE,
    }
}

// The field as it stands is the text, but for the word unknown.
fn text(declared: u32, field: &[u8], tags: &mut [u32], numbers: &mut [i64], bytes: &mut [u8]) -> u8
    ensures { FieldRead declared tags.old numbers.old bytes.old tags.new numbers.new bytes.new result (field_by true field.now) }
{
    if is_word(field, 0, field.len(), b"unknown") {
        typed_value::put_unknown(tags, numbers);
    } else {
        typed_value::put_text(field, tags, numbers, bytes);
    }
    Refusal::NONE
}

// A number, a list, or unknown.
fn typed(declared: u32, field: &[u8], tags: &mut [u32], numbers: &mut [i64], bytes: &mut [u8]) -> u8
    ensures { FieldRead declared tags.old numbers.old bytes.old tags.new numbers.new bytes.new result (field_by false field.now) }
{
    match typed_value::read(field, 0, field.len(), tags, numbers, bytes) {
        Typed::Value => Refusal::NONE,
        Typed::Wrong(slip, _) => number_of(slip, declared),
    }
}

// Reads a field into cells and bytes that are blank: the number of its refusal, or none.
pub fn read(
    declared: u32,
    field: &[u8],
    tags: &mut [u32],
    numbers: &mut [i64],
    bytes: &mut [u8],
) -> u8
    ensures { FieldRead declared tags.old numbers.old bytes.old tags.new numbers.new bytes.new result (field_as declared field.now) }
{
    if is_text(declared) {
        text(declared, field, tags, numbers, bytes)
    } else {
        typed(declared, field, tags, numbers, bytes)
    }
}

// What people are told of a refusal by 4: which name, and where the other definition stands. The text is read again, into tables.
use crate::named;
use limits::{Expressions, Guideline, Rows};
use sentences::slips::Sheet;

// Refusal 4 at a place.
pub fn of_name(text: &[u8], place: usize) {
    let mut rows = [0u32; Rows::CELLS];
    let mut cells = [0u32; Expressions::CELLS];
    let mut bytes = [0u8; Guideline::LIMIT];
    if let Ok(n) = reading::read(text, &mut rows, &mut cells, &mut bytes) {
        let sheet = Sheet {
            text,
            rows: &rows,
            n,
            bytes: &bytes,
        };
        named::why(sheet, place);
    }
}

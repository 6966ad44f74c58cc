// What people are told of a refusal by 5: which type, what was wanted, and the smallest part that has none. The text is read again, into tables.
use crate::{leaf, typed};
use explain_rows::firsts::begun_at;
use limits::{Expressions, Guideline, Rows};
use row_tests::cells::first_part;
use sentences::slips::Sheet;
use sentences::write;

// Of the row `j`, whose expression begins at the token i.
fn of_type(sheet: Sheet, cells: &[u32], kinds: &[u8], places: &[usize], i: usize, j: usize) {
    if let Some(p) = typed::why(sheet, cells, j) {
        leaf::tell(
            sheet.text,
            cells,
            first_part(sheet.rows, j),
            p,
            kinds,
            places,
            i,
        );
    }
    write::text(b"\n");
}

// Refusal 5 at a place, which is that of the token i.
pub fn of_expression(text: &[u8], kinds: &[u8], places: &[usize], i: usize, place: usize) {
    let mut rows = [0u32; Rows::CELLS];
    let mut cells = [0u32; Expressions::CELLS];
    let mut bytes = [0u8; Guideline::LIMIT];
    if let Ok(n) = reading::read(text, &mut rows, &mut cells, &mut bytes) {
        let sheet = Sheet {
            text,
            rows: &rows,
            n,
            bytes: &bytes,
        };
        if let Some(j) = begun_at(&rows, n, place) {
            of_type(sheet, &cells, kinds, places, i, j);
        }
    }
}

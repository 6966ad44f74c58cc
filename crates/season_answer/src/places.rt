// The columns of a sheet, by the names in its first line. What is wrong with one is told on standard error.
ghost use Rattle.std.specs.Prelude.{◌≡◌, ◌+◌, ◌<◌, min, set, MatchOption};
ghost use Rattle.season_answer.specs.Columns as places;

use crate::found::{Column, stands_for};
use crate::nearness;
use blocks::{cell, put_cell};
use separated::field;

// Columns are counted from 1; what stands behind the last counts to it.
pub fn counted(i: usize) -> u64
    ensures { result ≡ min i 127 + 1 }
{
    i.min(Column::LIMIT - 1) as u64 + 1
}

fn head(i: usize, name: &[u8]) {
    aside::text(b"column ");
    aside::number(counted(i));
    aside::text(b", ");
    aside::bytes(name);
}

// No data item has the name.
fn tell_nothing(plan: &[u32], texts: &[u8], i: usize, name: &[u8]) {
    head(i, name);
    aside::text(b": no data item has this name.");
    nearness::tell(plan, texts, name);
    aside::text(b" The name of a column that only labels its lines begins with #.\n");
}

// Another column stands for the same data item.
fn tell_twice(i: usize, name: &[u8], first: usize) {
    head(i, name);
    aside::text(b": this data item is also that of column ");
    aside::number(counted(first));
    aside::text(b".\n");
}

// The first of the columns before `i` that stands for the data item.
#[tactic(auto, using(crate::specs::ColumnsLaws::first_past, crate::specs::ColumnsLaws::first_here, crate::specs::ColumnsLaws::first_later, crate::specs::ColumnsLaws::none_off))]
fn first_with(columns: &[u32], i: usize, c: u32) -> Option<usize>
    ensures { MatchOption result (places.first_with columns.now i c ≡ i) (λ j. (j ≡ places.first_with columns.now i c) × (j < i)) }
{
    for j in 0..i {
        if cell(columns, j) == c {
            return Some(j);
        }
    }
    None
}

// Whether the column `i`, which stands for `c`, may.
fn is_well(plan: &[u32], texts: &[u8], columns: &[u32], i: usize, c: u32, name: &[u8]) -> bool
    ensures { result ≡ places.may_stand columns.now i c }
{
    if c == Column::LABEL {
        return true;
    }
    if c == Column::NOTHING {
        tell_nothing(plan, texts, i, name);
        return false;
    }
    match first_with(columns, i, c) {
        Some(j) => {
            tell_twice(i, name, j);
            false
        }
        None => true,
    }
}

// The column `i`.
fn read_one(
    plan: &[u32],
    texts: &[u8],
    kept: &[u8],
    ends: &[usize],
    i: usize,
    columns: &mut [u32],
) -> bool
    ensures { (result ≡ places.may_stand columns.old i (places.of_field plan.now texts.now kept.now ends.now i)) × (columns.new ≡ set columns.old i (places.of_field plan.now texts.now kept.now ends.now i)) }
{
    let name = field(kept, ends, i);
    let c = stands_for(plan, texts, name);
    let well = is_well(plan, texts, columns, i, c, name);
    put_cell(columns, i, c);
    well
}

// All of them; whether each may be there.
pub fn read(
    plan: &[u32],
    texts: &[u8],
    kept: &[u8],
    ends: &[usize],
    fields: usize,
    columns: &mut [u32],
) -> bool
    ensures { (result ≡ places.all_may (places.of_field plan.now texts.now kept.now ends.now) columns.old 0 fields) × (columns.new ≡ places.columns_from (places.of_field plan.now texts.now kept.now ends.now) columns.old 0 fields) }
{
    let mut well = true;
    for i in 0..fields {
        let one = read_one(plan, texts, kept, ends, i, columns);
        well = well && one;
    }
    well
}

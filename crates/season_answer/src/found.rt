// The data item that a column's name finds, A to Z folded, as an expression finds it (9.5).
ghost use Rattle.std.specs.Prelude.{◌≡◌, ◌≤◌, ◌<◌, MatchOption};
ghost use Rattle.paper_expressions.proofs.Laws.Search.{alikeb};
ghost use Rattle.parts.specs.Texts.{text_at_fn};
ghost use Rattle.season_answer.specs.Columns as columns;

use limits::DataItems;
use parts::HANDLE;
use parts::names::{letter, lower};
use state::{Plan, cell};

#[derive(Drop)]
pub struct Column {}

// What a column stands for: a label of the line, which is copied to the answer; a data item, by its number and one; or nothing.
impl Column {
    pub const LABEL: u32 = 0;

    pub const NOTHING: u32 = u32::MAX;

    // the most columns of a sheet
    pub const LIMIT: usize = 128;

    // how the name of a label begins
    pub const MARK: u8 = b'#';
}

// How many data items there are.
pub fn count(plan: &[u32]) -> usize
    ensures { (result ≡ columns.item_count plan.now) × (result ≤ 64) }
{
    cell(plan, Plan::ITEMS, 0).min(DataItems::LIMIT)
}

// Whether the text with the handle `h` is the name.
fn is_name(texts: &[u8], h: usize, name: &[u8]) -> bool
    ensures { result ≡ alikeb (text_at_fn texts.now h) name.now }
{
    if h % HANDLE != name.len() {
        return false;
    }
    for (i, b) in name.iter().enumerate() {
        if letter(texts, h / HANDLE, i) != lower(*b) {
            return false;
        }
    }
    true
}

// The data item with the name.
#[tactic(auto, using(crate::specs::ColumnsLaws::first_past, crate::specs::ColumnsLaws::first_here, crate::specs::ColumnsLaws::first_later, crate::specs::ColumnsLaws::none_off))]
fn named(plan: &[u32], texts: &[u8], name: &[u8]) -> Option<usize>
    ensures { MatchOption result (columns.named plan.now texts.now name.now ≡ columns.item_count plan.now) (λ d. (d ≡ columns.named plan.now texts.now name.now) × (d < columns.item_count plan.now) × (d < 64)) }
{
    let n = count(plan);
    for d in 0..n {
        if is_name(texts, cell(plan, Plan::ITEM_NAME, d), name) {
            return Some(d);
        }
    }
    None
}

fn is_label(name: &[u8]) -> bool
    ensures { result ≡ columns.is_label name.now }
{
    matches!(name, [Column::MARK, ..])
}

// What a column with the name stands for.
pub fn stands_for(plan: &[u32], texts: &[u8], name: &[u8]) -> u32
    ensures { result ≡ columns.stands_for plan.now texts.now name.now }
{
    match named(plan, texts, name) {
        Some(d) => d as u32 + 1,
        None if is_label(name) => Column::LABEL,
        None => Column::NOTHING,
    }
}

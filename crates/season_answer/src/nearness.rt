// What a name that no data item has may have been meant for.
use crate::found::count;
use known_names::Sort;
use state::{Plan, cell};

// A name behind a blank.
fn listed(texts: &[u8], h: usize) {
    aside::text(b" ");
    aside::name(texts, h);
}

// The names of all data items.
fn list(plan: &[u32], texts: &[u8]) {
    for d in 0..count(plan) {
        listed(texts, cell(plan, Plan::ITEM_NAME, d));
    }
}

// How far off the nearest is.
fn how_far(off: usize) {
    if off == 1 {
        aside::text(b", a letter off.");
        return;
    }
    aside::text(b", ");
    aside::number(off as u64);
    aside::text(b" letters off.");
}

// A sentence on what there is instead: the nearest, where it may have been meant, or all. No row is needed for the name of a data item.
pub fn tell(plan: &[u32], texts: &[u8], name: &[u8]) {
    let near = known_names::nearest(plan, texts, plan, Sort::Item, name);
    if known_names::is_meant(near, name.len()) {
        aside::text(b" There is a data item ");
        aside::name(texts, cell(plan, Plan::ITEM_NAME, near.at));
        how_far(near.off);
        return;
    }
    aside::text(b" The data items are:");
    list(plan, texts);
    aside::text(b".");
}

// What is told of a name that nothing has.
use crate::lookup::{Sort, count, handle_of, is_there};
use crate::nearness::{is_meant, nearest};
use sentences::{slips, write};

fn sort(s: Sort) {
    match s {
        Sort::Task => write::text(b"task"),
        Sort::Item => write::text(b"data item"),
        Sort::Trigger => write::text(b"trigger"),
    }
}

// The name of the i-th.
pub fn tell(rows: &[u32], texts: &[u8], plan: &[u32], s: Sort, i: usize) {
    slips::name(texts, handle_of(rows, plan, s, i));
}

// The i-th behind a blank, if there is one.
fn listed(rows: &[u32], texts: &[u8], plan: &[u32], s: Sort, i: usize) {
    if is_there(plan, s, i) {
        write::text(b" ");
        tell(rows, texts, plan, s, i);
    }
}

// All of them.
fn list(rows: &[u32], texts: &[u8], plan: &[u32], s: Sort) {
    write::text(b" Each ");
    sort(s);
    write::text(b":");
    for i in 0..count(plan, s) {
        listed(rows, texts, plan, s, i);
    }
    write::text(b".");
}

// All of them, or that there is none.
fn all_or_none(rows: &[u32], texts: &[u8], plan: &[u32], s: Sort) {
    if (0..count(plan, s)).any(|i| is_there(plan, s, i)) {
        list(rows, texts, plan, s);
    } else {
        write::text(b" There is none.");
    }
}

// How far off the nearest is. Triggers alone have to have the same capitals, and can be off by nothing else.
fn how_far(off: usize) {
    match off {
        0 => write::text(b"; here capital letters have to be the same."),
        1 => write::text(b", a letter off."),
        _ => {
            write::text(b", ");
            write::number(off);
            write::text(b" letters off.");
        }
    }
}

// The nearest, where it may have been meant, or all of them.
fn instead(rows: &[u32], texts: &[u8], plan: &[u32], s: Sort, name: &[u8]) {
    let near = nearest(rows, texts, plan, s, name);
    if !is_meant(near, name.len()) {
        all_or_none(rows, texts, plan, s);
        return;
    }
    write::text(b" There is a ");
    sort(s);
    write::text(b" ");
    tell(rows, texts, plan, s, near.at);
    how_far(near.off);
}

// That nothing has the name.
pub fn none(rows: &[u32], texts: &[u8], plan: &[u32], s: Sort, name: &[u8]) {
    write::text(b"No ");
    sort(s);
    write::text(b" is named ");
    write::part(name, 0, name.len());
    write::text(b".");
    instead(rows, texts, plan, s, name);
    write::text(b"\n");
}

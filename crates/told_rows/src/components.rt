// Rows that are lists of components, and the data items that a postcondition assigns to: by the names of the components.
use limits::{Assignments, Marks, Sources};
use state::Plan;

// The task `k`, behind a comma if one stands before it; whether one stands there then.
fn next_task(rows: &[u32], texts: &[u8], plan: &[u32], is_one: bool, any: bool, k: usize) -> bool {
    if !is_one {
        return any;
    }
    worded::comma(any);
    worded::task(rows, texts, plan, k);
    true
}

// The tasks that are marked.
pub fn tasks(rows: &[u32], texts: &[u8], plan: &[u32], marks: Marks) {
    let mut any = false;
    for (k, is_one) in marks.iter().enumerate() {
        any = next_task(rows, texts, plan, *is_one, any, k);
    }
}

// The data item `d`, behind a comma if one stands before it; whether one stands there then.
fn next_item(texts: &[u8], plan: &[u32], is_one: bool, any: bool, d: usize) -> bool {
    if !is_one {
        return any;
    }
    worded::comma(any);
    worded::item(texts, plan, d);
    true
}

// The data items of the sources of the task `t`.
pub fn sources(texts: &[u8], plan: &[u32], t: usize) {
    let first = state::cell(plan, Plan::FIRST_SOURCE, t);
    let count = state::cell(plan, Plan::SOURCES, t);
    let mut any = false;
    for n in 0..Sources::LIMIT {
        let d = state::cell(plan, Plan::SOURCE_ITEM, n);
        any = next_item(texts, plan, worded::is_among(first, count, n), any, d);
    }
}

// The data items that the postcondition of the task `t` assigns to.
pub fn assigned(texts: &[u8], plan: &[u32], t: usize) {
    let first = state::cell(plan, Plan::FIRST_ASSIGNMENT, t);
    let count = state::cell(plan, Plan::ASSIGNMENTS, t);
    let mut any = false;
    for a in 0..Assignments::LIMIT {
        let d = state::cell(plan, Plan::ASSIGNED_ITEM, a);
        any = next_item(texts, plan, worded::is_among(first, count, a), any, d);
    }
}

// Every row of one component, property by property in section 10's order, in words on standard output.
// Nothing is asked of the tables: on any contents each ends and does nothing undefined.
#![tactic(auto)]

mod components;
mod properties;
mod told;

use limits::{DataItems, Tasks, WaitTable};
use state::Plan;

// The numbers of all properties lie below.
const PROPERTIES: u64 = 59;

// The row of the property `p` of the task `t`, if there is one.
fn task_property(
    rows: &[u32],
    texts: &[u8],
    plan: &[u32],
    waits: WaitTable,
    state: &[u32],
    t: usize,
    p: u64,
) {
    if Tasks::LIMIT <= t {
        return;
    }
    let r = task_rows::task_row(plan, waits, state, t, p);
    told::of_task(rows, texts, plan, waits[t], t, p, r);
}

// Every row of the task `t`.
pub fn task(rows: &[u32], texts: &[u8], plan: &[u32], waits: WaitTable, state: &[u32], t: usize) {
    if parts::number(plan, Plan::TASKS) <= t {
        return;
    }
    for p in 0..PROPERTIES {
        task_property(rows, texts, plan, waits, state, t, p);
    }
}

// The row of the property `p` of the data item `d`, if there is one.
fn item_property(texts: &[u8], plan: &[u32], state: &[u32], d: usize, p: u64) {
    if DataItems::LIMIT <= d {
        return;
    }
    told::of_item(texts, p, item_rows::item_row(plan, state, d, p));
}

// Every row of the data item `d`.
pub fn item(texts: &[u8], plan: &[u32], state: &[u32], d: usize) {
    if parts::number(plan, Plan::ITEMS) <= d {
        return;
    }
    for p in 0..PROPERTIES {
        item_property(texts, plan, state, d, p);
    }
}

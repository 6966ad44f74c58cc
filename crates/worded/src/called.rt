// The names of tasks and data items.
use row_tests::cells::handle;
use sentences::slips;
use state::Plan;

// The root has no name among the Properties: its own is that of the first row.
const ROOT: usize = 0;

// The name of the task `t`.
pub fn task(rows: &[u32], texts: &[u8], plan: &[u32], t: usize) {
    let name = if t == ROOT {
        handle(rows, ROOT)
    } else {
        state::cell(plan, Plan::TASK_NAME, t)
    };
    slips::name(texts, name);
}

// The name of the data item `d`.
pub fn item(texts: &[u8], plan: &[u32], d: usize) {
    slips::name(texts, state::cell(plan, Plan::ITEM_NAME, d));
}

// What is shown of the guideline: on loading, and of a task or data item by its name.
use known_names::Sort;
use limits::{DataItems, Tasks, WaitTable};
use sentences::write;
use tree::Tables;

// The data items that are asked for, and the tasks that wait to be confirmed.
pub fn asked(g: Tables) {
    if (0..DataItems::LIMIT).any(|d| tree::is_asked(g.state, d)) {
        write::text(b"Asked for:\n");
    }
    g.asked();
    if (0..Tasks::LIMIT).any(|t| tree::is_waiting(g.plan, g.state, t)) {
        write::text(b"To be confirmed:\n");
    }
    g.waiting();
}

// What is shown first.
pub fn first(g: Tables) {
    g.show();
    asked(g);
}

// The rows of the task or data item with the name; of both, if both have it.
pub fn rows_of(g: Tables, waits: WaitTable, name: &[u8]) {
    let t = known_names::find(g.rows, g.texts, g.plan, Sort::Task, name);
    let d = known_names::find(g.rows, g.texts, g.plan, Sort::Item, name);
    if let Some(t) = t {
        told_rows::task(g.rows, g.texts, g.plan, waits, g.state, t);
    }
    if let Some(d) = d {
        told_rows::item(g.texts, g.plan, g.state, d);
    }
    if t.is_none() && d.is_none() {
        known_names::none(g.rows, g.texts, g.plan, Sort::Task, name);
        known_names::none(g.rows, g.texts, g.plan, Sort::Item, name);
    }
}

// Why the task with the name is where it is.
pub fn why_is(g: Tables, waits: WaitTable, name: &[u8]) {
    match known_names::find(g.rows, g.texts, g.plan, Sort::Task, name) {
        Some(t) => why::tell(g, waits, t),
        None => known_names::none(g.rows, g.texts, g.plan, Sort::Task, name),
    }
}

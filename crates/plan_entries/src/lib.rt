// What a row writes to the plan, by its kind. Nothing is asked of the tables: on any contents it ends and does nothing undefined.
#![tactic(auto)]

ghost use Rattle.std.specs.Prelude.{◌≡◌, cond, eqb};
ghost use Rattle.row_tests.specs.Table.{cell_of};
ghost use Rattle.plan.specs.Writes.{a_task, a_data_item, a_trigger, a_terminal, a_source, a_mandatory, an_assignment, answer};
ghost use Rattle.plan_entries.specs.Turns.{Turn, EndTurn, ComponentTurn, ItemTurn, RowTurn};

use guideline_rows::{Kind, Row};
use limits::{Assignments, DataItems, Sources, Tasks};
use plan_cells::cells::{cell, more, put, short};
use plan_cells::found::{find, row};
use plan_cells::spot::Spot;
use row_tests::cells::{handle, kind};
use state::{Answer, Class, Plan};

// The classes, as they stand in a cell.
const PLAN: u32 = Class::PLAN as u32;

const ACTION: u32 = Class::ACTION as u32;

const ENQUIRY: u32 = Class::ENQUIRY as u32;

// The handle of a task's name; the root has none.
fn name_of(rows: &[u32], k: usize, t: usize) -> u32
    ensures { result ≡ cond (eqb t 0) 0 (cell_of rows.now k 2) }
{
    if t == 0 { 0 } else { cell(rows, k, Row::NAME) }
}

fn task(rows: &[u32], k: usize, at: Spot, class: u32, f: &mut [u32])
    ensures { Turn rows.now k at (a_task class) f.old f.new }
{
    let t = at.tasks;
    put(f, Plan::TASKS, 1, 0, short(more(t)));
    put(f, Plan::CLASS, Tasks::LIMIT, t, class);
    put(f, Plan::FIRST_SOURCE, Tasks::LIMIT, t, short(at.sources));
    put(
        f,
        Plan::FIRST_ASSIGNMENT,
        Tasks::LIMIT,
        t,
        short(at.assignments),
    );
    put(f, Plan::TASK_NAME, Tasks::LIMIT, t, name_of(rows, k, t));
}

fn item(rows: &[u32], k: usize, at: Spot, f: &mut [u32])
    ensures { Turn rows.now k at a_data_item f.old f.new }
{
    let d = at.items;
    put(f, Plan::ITEMS, 1, 0, short(more(d)));
    put(
        f,
        Plan::ITEM_NAME,
        DataItems::LIMIT,
        d,
        cell(rows, k, Row::NAME),
    );
    put(
        f,
        Plan::ITEM_TYPE,
        DataItems::LIMIT,
        d,
        cell(rows, k, Row::FLAG),
    );
}

// Where an expression of the task ends.
fn ends(rows: &[u32], k: usize, at: Spot, column: usize, f: &mut [u32])
    ensures { EndTurn rows.now k at column f.old f.new }
{
    put(
        f,
        column,
        Tasks::LIMIT,
        at.tasks.saturating_sub(1),
        cell(rows, k, Row::END),
    );
}

fn trigger(rows: &[u32], k: usize, at: Spot, f: &mut [u32])
    ensures { Turn rows.now k at a_trigger f.old f.new }
{
    let t = at.tasks.saturating_sub(1);
    put(f, Plan::TRIGGERED, Tasks::LIMIT, t, 1);
    put(f, Plan::TRIGGER, Tasks::LIMIT, t, cell(rows, k, Row::NAME));
}

fn terminal(rows: &[u32], k: usize, at: Spot, f: &mut [u32])
    ensures { Turn rows.now k at a_terminal f.old f.new }
{
    put(
        f,
        Plan::TERMINAL,
        Tasks::LIMIT,
        at.child,
        cell(rows, k, Row::FLAG),
    );
}

fn mandatory(rows: &[u32], k: usize, at: Spot, f: &mut [u32])
    ensures { Turn rows.now k at a_mandatory f.old f.new }
{
    put(
        f,
        Plan::MANDATORY,
        Sources::LIMIT,
        at.sources.saturating_sub(1),
        cell(rows, k, Row::FLAG),
    );
}

// Whether a task of the kind is confirmed: an action is.
fn confirms(class: usize) -> u32
    ensures { result ≡ answer (eqb class 1) }
{
    if class == Kind::ACTION {
        Answer::YES
    } else {
        Answer::NO
    }
}

// The component names the task `c`.
fn component(
    rows: &[u32],
    n: usize,
    tasks: &[u32],
    m: usize,
    k: usize,
    at: Spot,
    c: usize,
    f: &mut [u32],
)
    ensures { ComponentTurn rows.now n tasks.now m k at c f.old f.new }
{
    let class = kind(rows, row(tasks, m, n, c));
    put(f, Plan::PARENT, Tasks::LIMIT, c, short(at.tasks));
    put(f, Plan::CONFIRMATORY, Tasks::LIMIT, c, confirms(class));
}

fn source(rows: &[u32], bytes: &[u8], items: &[u32], d: usize, k: usize, at: Spot, f: &mut [u32])
    ensures { ItemTurn rows.now bytes.now items.now d k at a_source f.old f.new }
{
    let i = find(rows, bytes, items, d, false, handle(rows, k));
    let z = more(at.sources).saturating_sub(at.sourced);
    put(f, Plan::SOURCE_ITEM, Sources::LIMIT, at.sources, short(i));
    put(
        f,
        Plan::SOURCES,
        Tasks::LIMIT,
        at.tasks.saturating_sub(1),
        short(z),
    );
}

fn assignment(
    rows: &[u32],
    bytes: &[u8],
    items: &[u32],
    d: usize,
    k: usize,
    at: Spot,
    f: &mut [u32],
)
    ensures { ItemTurn rows.now bytes.now items.now d k at an_assignment f.old f.new }
{
    let i = find(rows, bytes, items, d, true, handle(rows, k));
    let a = at.assignments;
    let t = at.tasks.saturating_sub(1);
    put(f, Plan::ASSIGNED_ITEM, Assignments::LIMIT, a, short(i));
    put(
        f,
        Plan::ASSIGNED_END,
        Assignments::LIMIT,
        a,
        cell(rows, k, Row::END),
    );
    put(f, Plan::ASSIGNING_TASK, Assignments::LIMIT, a, short(t));
    put(
        f,
        Plan::ASSIGNMENTS,
        Tasks::LIMIT,
        t,
        short(more(a).saturating_sub(at.assigned)),
    );
}

// What the row `k` writes, where its component, or else the last, names the task `c`.
pub fn write(
    rows: &[u32],
    n: usize,
    bytes: &[u8],
    tasks: &[u32],
    m: usize,
    items: &[u32],
    d: usize,
    k: usize,
    at: Spot,
    c: usize,
    f: &mut [u32],
)
    ensures { RowTurn rows.now n bytes.now tasks.now m items.now d k at c f.old f.new }
{
    match kind(rows, k) {
        Kind::PLAN => task(rows, k, at, PLAN, f),
        Kind::ACTION => task(rows, k, at, ACTION, f),
        Kind::ENQUIRY => task(rows, k, at, ENQUIRY, f),
        Kind::DATA => item(rows, k, at, f),
        Kind::PRECONDITION => ends(rows, k, at, Plan::PRECONDITION, f),
        Kind::WAIT_CONDITION => ends(rows, k, at, Plan::WAIT_CONDITION, f),
        Kind::TERMINATE => ends(rows, k, at, Plan::TERMINATE, f),
        Kind::TRIGGER => trigger(rows, k, at, f),
        Kind::COMPONENT => component(rows, n, tasks, m, k, at, c, f),
        Kind::TERMINAL => terminal(rows, k, at, f),
        Kind::SOURCE => source(rows, bytes, items, d, k, at, f),
        Kind::MANDATORY => mandatory(rows, k, at, f),
        Kind::EQUALS => assignment(rows, bytes, items, d, k, at, f),
        _ => {}
    }
}

// 8.5.1, 8.5.2, 8.5.4 and 8.5.5: the rows that the review of a task adds to the Changes table.
#![tactic(auto)]

ghost use Rattle.std.specs.Prelude.{◌≡◌, ◌+◌, ◌≤◌, ◌<◌, get_or};
ghost use Rattle.operations.specs.Rows.{InitialiseRows, DiscardRows, AssignRow, AssignRows, CompleteRows};
ghost use Rattle.operations.specs.Review.{ReviewRows};

use changes::{Column, Row, Rows, State};
use limits::Assignments;
use state::Plan;

// 8.5.2.
fn initialise(f: &[u32], t: u32, rows: &mut Rows)
    ensures initialise_rows { InitialiseRows f.now t rows.old.cells.now rows.old.count rows.new.cells.now rows.new.count }
    ensures few { rows.new.count ≤ rows.old.count + 6 }
    ensures same { rows.new.cells.ghost_name ≡ rows.old.cells.ghost_name }
{
    rows.push(Row::state(t, State::DORMANT));
    rows.push(Row::count(t, Column::CYCLE_COUNT, 0));
    rows.push(Row::unknown(t, Column::START_AT));
    rows.push(Row::truth(t, Column::TRIGGER_ACTIVE, false));
    rows.push(Row::unknown(t, Column::NBR_CYCLES_VALUE));
    starting::procedure(f, t, rows);
}

// 8.5.4.
fn discard(t: u32, clock: u32, rows: &mut Rows)
    ensures discard_rows { DiscardRows clock t rows.old.cells.now rows.old.count rows.new.cells.now rows.new.count }
    ensures few { rows.new.count ≤ rows.old.count + 2 }
    ensures same { rows.new.cells.ghost_name ≡ rows.old.cells.ghost_name }
{
    rows.push(Row::state(t, State::DISCARDED));
    rows.push(Row::time(t, Column::DISCARDED_TIME, clock));
}

// The row of the assignment with the number `a`.
fn assign(f: &[u32], a: usize, rows: &mut Rows)
    ensures assign_row { AssignRow f.now a rows.old.cells.now rows.old.count rows.new.cells.now rows.new.count }
    ensures few { rows.new.count ≤ rows.old.count + 1 }
    ensures same { rows.new.cells.ghost_name ≡ rows.old.cells.ghost_name }
{
    if Assignments::LIMIT <= a {
        return;
    }
    let d = blocks::cell(f, Plan::ASSIGNED_ITEM + a);
    if Row::ITEMS <= d {
        return;
    }
    rows.push(Row::assigned(Row::ITEM + d, a as u32));
}

// 8.5.11: a row for each of `count` assignments from the one with the number `first` on, which holds that number.
fn assigns(f: &[u32], first: u32, count: u32, rows: &mut Rows)
    ensures assign_rows { AssignRows f.now first count rows.old.cells.now rows.old.count rows.new.cells.now rows.new.count }
    ensures few { rows.new.count ≤ rows.old.count + count }
    ensures same { rows.new.cells.ghost_name ≡ rows.old.cells.ghost_name }
{
    let from = first as usize;
    for i in 0..count as usize {
        assign(f, from + i, rows);
    }
}

// 8.5.5. No task of the first edition cycles: its start_at becomes unknown.
fn complete(f: &[u32], t: u32, clock: u32, rows: &mut Rows)
    requires { t < 32 }
    ensures complete_rows { CompleteRows f.now clock t rows.old.cells.now rows.old.count rows.new.cells.now rows.new.count }
    ensures few { rows.new.count ≤ rows.old.count + (3 + get_or f.now (648 + t) 0) }
    ensures same { rows.new.cells.ghost_name ≡ rows.old.cells.ghost_name }
{
    rows.push(Row::state(t, State::COMPLETED));
    rows.push(Row::time(t, Column::COMPLETED_TIME, clock));
    rows.push(Row::unknown(t, Column::START_AT));
    let i = t as usize;
    assigns(
        f,
        blocks::cell(f, Plan::FIRST_ASSIGNMENT + i),
        blocks::cell(f, Plan::ASSIGNMENTS + i),
        rows,
    );
}

// 8.5.1: the rows of the clause that fits.
#[tactic(auto, using(crate::specs::Review::rows_4, crate::specs::Review::rows_5))]
pub fn review_one(
    s: &[u32],
    f: &[u32],
    clock: u32,
    t: u32,
    initialises: bool,
    starts: bool,
    discards: bool,
    completes: bool,
    rows: &mut Rows,
)
    requires { t < 32 }
    ensures review_rows { ReviewRows s.now f.now clock t initialises starts discards completes rows.old.cells.now rows.old.count rows.new.cells.now rows.new.count }
    ensures few { rows.new.count ≤ rows.old.count + (6 + (get_or f.now (232 + t) 0 + get_or f.now (648 + t) 0)) }
    ensures same { rows.new.cells.ghost_name ≡ rows.old.cells.ghost_name }
{
    if initialises {
        initialise(f, t, rows);
    } else if starts {
        starting::start(s, f, clock, t, rows);
    } else if discards {
        discard(t, clock, rows);
    } else if completes {
        complete(f, t, clock, rows);
    }
}

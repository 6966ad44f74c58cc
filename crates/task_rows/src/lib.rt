// The rows of a task, as the plan and the state tell them.
#![tactic(auto)]

ghost use Rattle.std.specs.Prelude.{◌<◌, ◌≡◌};
ghost use Rattle.waits.specs.Booleans.{any_f};
ghost use Rattle.waits.specs.Twins.{marked};
ghost use Rattle.task_rows.specs.Answers.{Moving, ThereIf, ClassRow, TextIf, ParentRow};
ghost use Rattle.task_rows.specs.TaskRow.{TaskRow};

use limits::{Marks, Tasks, WaitTable};
use row_shown::{Class, Kind, Rank, Row, Shown};
use state::{Plan, Property};
use values::Scalar;

// The classes of the plan.
const PLAN: u32 = state::Class::PLAN as u32;

const ACTION: u32 = state::Class::ACTION as u32;

const ENQUIRY: u32 = state::Class::ENQUIRY as u32;

// A row that moves, of the property whose column begins at `p`.
fn moving(s: &[u32], p: u16, t: usize) -> Row
    requires { t < 32 }
    ensures { Moving s.now p t result }
{
    let q = usize::from(p);
    row_shown::by_cells(
        blocks::cell(s, q + t),
        blocks::cell(s, q + Tasks::LIMIT + t),
    )
}

// A row that is shown as being there.
fn there(yes: bool) -> Row
    ensures { ThereIf yes result }
{
    row_shown::plain(if yes { Shown::There } else { Shown::NoRow })
}

// The class with the number `k` of the plan, by its number of document 01.
fn class(k: u32) -> Row
    ensures { ClassRow k result }
{
    match k {
        PLAN => row_shown::plain(Shown::OfClass(Class::PLAN)),
        ACTION => row_shown::plain(Shown::OfClass(Class::ACTION)),
        ENQUIRY => row_shown::plain(Shown::OfClass(Class::ENQUIRY)),
        _ => row_shown::plain(Shown::NoRow),
    }
}

// The text with the handle `h`, if there is one.
fn text(yes: bool, h: u32) -> Row
    ensures { TextIf yes h result }
{
    if yes {
        row_shown::name(h as usize)
    } else {
        row_shown::plain(Shown::NoRow)
    }
}

// The parent, by its number and one.
fn parent(p: u32) -> Row
    ensures { ParentRow p result }
{
    match p {
        0 => row_shown::plain(Shown::NoRow),
        _ => row_shown::plain(Shown::OfComponent(Kind::TASK, p - 1)),
    }
}

// Whether one is marked.
fn any(row: Marks) -> bool
    ensures { result ≡ any_f (marked row) 32 }
{
    let mut found = false;
    for mark in row {
        found |= mark;
    }
    found
}

// The row of the property with the number `p` of the task `t`.
pub fn task_row(f: &[u32], w: WaitTable, s: &[u32], t: usize, p: u64) -> Row
    requires { t < 32 }
    ensures { TaskRow f.now w s.now t p result }
{
    match p {
        Rank::CLASS => class(blocks::cell(f, Plan::CLASS + t)),
        Rank::NAME => text(t != 0, blocks::cell(f, Plan::TASK_NAME + t)),
        Rank::STATE => moving(s, Property::STATE, t),
        Rank::ANTECEDENT_TASKS => there(any(w[t])),
        Rank::PRECONDITION => there(blocks::cell(f, Plan::PRECONDITION + t) != 0),
        Rank::WAIT_CONDITION => there(blocks::cell(f, Plan::WAIT_CONDITION + t) != 0),
        Rank::TRIGGER => text(
            blocks::cell(f, Plan::TRIGGERED + t) == 1,
            blocks::cell(f, Plan::TRIGGER + t),
        ),
        Rank::TRIGGER_ACTIVE => moving(s, Property::TRIGGER_ACTIVE, t),
        Rank::POSTCONDITION => there(blocks::cell(f, Plan::ASSIGNMENTS + t) != 0),
        Rank::PARENT_PLAN => parent(blocks::cell(f, Plan::PARENT + t)),
        Rank::CONFIRMATORY => row_shown::by_answer(blocks::cell(f, Plan::CONFIRMATORY + t)),
        Rank::CONFIRMED => moving(s, Property::CONFIRMED, t),
        Rank::CYCLE_COUNT => moving(s, Property::CYCLE_COUNT, t),
        Rank::NBR_CYCLES_VALUE => moving(s, Property::NBR_CYCLES_VALUE, t),
        Rank::START_AT => moving(s, Property::START_AT, t),
        Rank::TERMINAL => row_shown::by_answer(blocks::cell(f, Plan::TERMINAL + t)),
        Rank::IN_PROGRESS_TIME => moving(s, Property::IN_PROGRESS_TIME, t),
        Rank::DISCARDED_TIME => moving(s, Property::DISCARDED_TIME, t),
        Rank::COMPLETED_TIME => moving(s, Property::COMPLETED_TIME, t),
        Rank::TERMINATE_CONDITION => there(blocks::cell(f, Plan::TERMINATE + t) != 0),
        Rank::SOURCES => there(blocks::cell(f, Plan::SOURCES + t) != 0),
        Rank::ACTUAL_PROCEDURE => moving(s, Property::ACTUAL_PROCEDURE, t),
        _ => row_shown::plain(Shown::NoRow),
    }
}

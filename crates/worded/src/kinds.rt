// States, classes and declared types by their numbers in docs/TABLES.md.
use pieces::STDOUT_FILENO;
use state::{Class, State};

// The place of a state among the texts below.
fn state_place(n: usize) -> usize {
    match n {
        State::DORMANT => 0,
        State::IN_PROGRESS => 1,
        State::DISCARDED => 2,
        State::COMPLETED => 3,
        _ => 4,
    }
}

// A state; one that a collision has made unknown is in none of the four.
pub fn state(n: usize) {
    pieces::write(
        STDOUT_FILENO,
        b"dormant|in_progress|discarded|completed|unknown",
        state_place(n),
    );
}

// The place of a class among the texts below.
fn class_place(n: usize) -> usize {
    match n {
        Class::PLAN => 0,
        Class::ACTION => 1,
        Class::ENQUIRY => 2,
        _ => 3,
    }
}

// The class of a task.
pub fn class(n: usize) {
    pieces::write(STDOUT_FILENO, b"plan|action|enquiry|task", class_place(n));
}

// The declared type of a data item.
pub fn declared(n: usize) {
    pieces::write(
        STDOUT_FILENO,
        b"of no type|text|integer|boolean|datetime|date|time|real|setof_text|setof_integer|setof_real|of no type",
        n,
    );
}

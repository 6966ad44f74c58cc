// What the kind of a row tells: the number of its word's terminal.
ghost use Rattle.std.specs.Prelude.{◌≡◌};
ghost use Rattle.row_names.specs.Sheet.{task_kind, head_kind, once as onceOf, inner as inner_of, parts_from};

use guideline_rows::Kind;

// A plan, an action or an enquiry begins.
pub fn is_task(k: usize) -> bool
    ensures { result ≡ task_kind k }
{
    matches!(k, Kind::PLAN | Kind::ACTION | Kind::ENQUIRY)
}

// A task or a data item begins.
pub fn is_head(k: usize) -> bool
    ensures { result ≡ head_kind k }
{
    matches!(k, Kind::PLAN | Kind::ACTION | Kind::ENQUIRY | Kind::DATA)
}

// An attribute that stands once: all but component, schedule_constraint and source.
pub fn once(k: usize) -> bool
    ensures { result ≡ onceOf k }
{
    matches!(
        k,
        Kind::CAPTION
            | Kind::DESCRIPTION
            | Kind::PRECONDITION
            | Kind::WAIT_CONDITION
            | Kind::POSTCONDITION
            | Kind::TERMINATE
            | Kind::TRIGGER
            | Kind::TERMINAL
            | Kind::MANDATORY
    )
}

// Caption, description, terminal, mandatory: a component or a source may have its own.
fn inner(k: usize) -> bool
    ensures { result ≡ inner_of k }
{
    matches!(
        k,
        Kind::CAPTION | Kind::DESCRIPTION | Kind::TERMINAL | Kind::MANDATORY
    )
}

// Before a row of kind `m` another owner's attributes stand, as far as those of kind `k` go.
pub fn parts(k: usize, m: usize) -> bool
    ensures { result ≡ parts_from k m }
{
    match m {
        Kind::COMPONENT | Kind::SOURCE => inner(k),
        _ => is_head(m),
    }
}

// The names that the plan has, and the one that is meant.
ghost use Rattle.std.specs.Prelude.{◌≡◌};
ghost use Rattle.paper_expressions.proofs.Laws.Search.{sameb, alikeb};
ghost use Rattle.parts.specs.Texts.{text_at_fn};
ghost use Rattle.known_names.specs.Names.{count_of, handle_of, there_of, named_at, trigger_at, FoundFirst};

use parts::HANDLE;
use parts::names::{at, letter, lower};
use row_tests::cells::handle;
use state::Plan;

// What has such a name.
#[derive(Clone, Copy, PartialEq, Eq)]
pub enum Sort {
    Task,
    Item,
    Trigger,
}

// The task that is the root, whose name is that of the first row.
const ROOT: usize = 0;

// How many of them there are; of triggers, how many tasks might have one.
pub fn count(plan: &[u32], s: Sort) -> usize
    ensures { result ≡ count_of plan.now s }
{
    match s {
        Sort::Task | Sort::Trigger => parts::number(plan, Plan::TASKS),
        Sort::Item => parts::number(plan, Plan::ITEMS),
    }
}

// The handle of the i-th name.
pub fn handle_of(rows: &[u32], plan: &[u32], s: Sort, i: usize) -> usize
    ensures { result ≡ handle_of rows.now plan.now s i }
{
    match s {
        Sort::Task if i == ROOT => handle(rows, ROOT),
        Sort::Task => state::cell(plan, Plan::TASK_NAME, i),
        Sort::Item => state::cell(plan, Plan::ITEM_NAME, i),
        Sort::Trigger => state::cell(plan, Plan::TRIGGER, i),
    }
}

// Whether there is an i-th: not every task has a trigger.
pub fn is_there(plan: &[u32], s: Sort, i: usize) -> bool
    ensures { result ≡ there_of plan.now s i }
{
    match s {
        Sort::Task | Sort::Item => true,
        Sort::Trigger => state::cell(plan, Plan::TRIGGERED, i) == 1,
    }
}

// Whether a name is that with the handle `h`, case aside.
fn is_alike(name: &[u8], texts: &[u8], h: usize) -> bool
    ensures { result ≡ alikeb name.now (text_at_fn texts.now h) }
{
    if name.len() != h % HANDLE {
        return false;
    }
    for (i, b) in name.iter().enumerate() {
        if lower(*b) != letter(texts, h / HANDLE, i) {
            return false;
        }
    }
    true
}

fn is_named(rows: &[u32], texts: &[u8], plan: &[u32], s: Sort, name: &[u8], i: usize) -> bool
    ensures { result ≡ named_at rows.now texts.now plan.now s name.now i }
{
    is_there(plan, s, i) && is_alike(name, texts, handle_of(rows, plan, s, i))
}

// The first one with the name, if any has it.
pub fn find(rows: &[u32], texts: &[u8], plan: &[u32], s: Sort, name: &[u8]) -> Option<usize>
    ensures { FoundFirst (named_at rows.now texts.now plan.now s name.now) (count_of plan.now s) result }
{
    for i in 0..count(plan, s) {
        if is_named(rows, texts, plan, s, name, i) {
            return Some(i);
        }
    }
    None
}

// Whether the bytes are those of the text with the handle `h`.
fn is_same(name: &[u8], texts: &[u8], h: usize) -> bool
    ensures { result ≡ sameb name.now (text_at_fn texts.now h) }
{
    if name.len() != h % HANDLE {
        return false;
    }
    for (i, b) in name.iter().enumerate() {
        if *b != at(texts, h / HANDLE, i) {
            return false;
        }
    }
    true
}

// Whether the task has this trigger, byte for byte.
pub fn is_trigger(texts: &[u8], plan: &[u32], name: &[u8], t: usize) -> bool
    ensures { result ≡ trigger_at texts.now plan.now name.now t }
{
    is_there(plan, Sort::Trigger, t) && is_same(name, texts, state::cell(plan, Plan::TRIGGER, t))
}

// Which data items an expression names, and for the states of which tasks it asks by name. The last mark is that of what is none.
ghost use Rattle.std.specs.Prelude.{◌≡◌, ◌+◌, ◌*◌, ◌-◌, get_or};
ghost use Rattle.truths.specs.Part.{part_of};
ghost use Rattle.why.specs.Mentions.{Named, Asks, TaskOf, TheOne, Mentioned, state_code, text_code};

use limits::{DataItems, Tasks};
use parts::names::find;
use parts::{Code, back, code, load};
use state::Plan;

// The data item that the part `p` names, or the limit.
fn item_at(parts: &[u32], texts: &[u8], plan: &[u32], p: usize) -> usize
    ensures { TheOne (Named parts.now texts.now (part_of plan.now 1256 (get_or plan.now 1 0)) p) 64 result }
{
    if code(parts, p) != Code::ATOM {
        return DataItems::LIMIT;
    }
    let names = truths::part(plan, Plan::ITEM_NAME, parts::number(plan, Plan::ITEMS));
    let d = find(texts, names, load(parts, p) as usize);
    if DataItems::LIMIT <= d {
        return DataItems::LIMIT;
    }
    if names.len() <= d {
        return DataItems::LIMIT;
    }
    d
}

// The data items that the expression which ends at `e` names.
pub fn items(parts: &[u32], texts: &[u8], plan: &[u32], e: usize) -> [bool; DataItems::LIMIT + 1]
    ensures { Mentioned (Named parts.now texts.now (part_of plan.now 1256 (get_or plan.now 1 0))) 64 (e - get_or parts.now ((e - 1) * 4 + 2) 0) e result }
{
    let mut m = [false; DataItems::LIMIT + 1];
    for p in back(parts, e)..e {
        let d = item_at(parts, texts, plan, p);
        m[d] = true;
    }
    m
}

// Whether a part with this code asks for the state of a task.
fn is_state(c: usize) -> bool
    ensures { result ≡ state_code c }
{
    matches!(
        c,
        Code::IS_DORMANT | Code::IS_IN_PROGRESS | Code::IS_DISCARDED | Code::IS_COMPLETED
    )
}

// Whether a part with this code is a text as it stands.
fn is_text(c: usize) -> bool
    ensures { result ≡ text_code c }
{
    matches!(c, Code::ATOM | Code::STRING)
}

// One less, and never below 0: how many tasks there are behind the root.
fn others(n: usize) -> usize
    ensures { result ≡ n - 1 }
{
    n.saturating_sub(1)
}

// The task with the name of the part `p`, or the limit. The root has none.
fn named(parts: &[u32], texts: &[u8], plan: &[u32], p: usize) -> usize
    ensures { TheOne (TaskOf texts.now (part_of plan.now 1193 (get_or plan.now 0 0 - 1)) (get_or parts.now (p * 4 + 3) 0)) 32 result }
{
    let n = others(parts::number(plan, Plan::TASKS));
    let names = truths::part(plan, Plan::TASK_NAME + 1, n);
    let k = find(texts, names, load(parts, p) as usize);
    if Tasks::LIMIT <= k {
        return Tasks::LIMIT;
    }
    if names.len() <= k {
        return Tasks::LIMIT;
    }
    k + 1
}

// The task for whose state the part `p` asks, where its name stands right before it, or the limit.
fn task_at(parts: &[u32], texts: &[u8], plan: &[u32], p: usize) -> usize
    ensures { TheOne (Asks parts.now texts.now (part_of plan.now 1256 (get_or plan.now 1 0)) (part_of plan.now 1193 (get_or plan.now 0 0 - 1)) p) 32 result }
{
    if p == 0 {
        return Tasks::LIMIT;
    }
    if !is_state(code(parts, p)) {
        return Tasks::LIMIT;
    }
    if !is_text(code(parts, p - 1)) {
        return Tasks::LIMIT;
    }
    if item_at(parts, texts, plan, p - 1) < DataItems::LIMIT {
        return Tasks::LIMIT;
    }
    named(parts, texts, plan, p - 1)
}

// The tasks for whose state the expression which ends at `e` asks by name.
pub fn tasks(parts: &[u32], texts: &[u8], plan: &[u32], e: usize) -> [bool; Tasks::LIMIT + 1]
    ensures { Mentioned (Asks parts.now texts.now (part_of plan.now 1256 (get_or plan.now 1 0)) (part_of plan.now 1193 (get_or plan.now 0 0 - 1))) 32 (e - get_or parts.now ((e - 1) * 4 + 2) 0) e result }
{
    let mut m = [false; Tasks::LIMIT + 1];
    for p in back(parts, e)..e {
        let t = task_at(parts, texts, plan, p);
        m[t] = true;
    }
    m
}

// Who waits for whom: the row of a task marks the tasks that its schedule constraints name.
ghost use Rattle.plan_fill.specs.Waiting.{Sets, Waits, AllWaits};

use guideline_rows::Kind;
use limits::{Tasks, WaitTable};
use plan_cells::found::{child, find};
use row_tests::cells::{handle, kind};

// The task `t` waits for the task `a`.
fn set(mut w: WaitTable, t: usize, a: usize) -> WaitTable
    ensures { Sets w t a result }
{
    if Tasks::LIMIT <= t || Tasks::LIMIT <= a {
        return w;
    }
    w[t][a] = true;
    w
}

// What the row `k` tells, where the last component names the task `c`.
fn wait(
    rows: &[u32],
    bytes: &[u8],
    tasks: &[u32],
    m: usize,
    k: usize,
    c: usize,
    w: WaitTable,
) -> WaitTable
    ensures { Waits rows.now bytes.now tasks.now m k c w result }
{
    if kind(rows, k) == Kind::SCHEDULE_CONSTRAINT {
        set(w, c, find(rows, bytes, tasks, m, false, handle(rows, k)))
    } else {
        w
    }
}

// What the first `n` rows tell of `m` tasks.
pub fn waiting(rows: &[u32], n: usize, bytes: &[u8], tasks: &[u32], m: usize) -> WaitTable
    ensures { AllWaits rows.now n bytes.now tasks.now m result }
{
    let mut w = [[false; Tasks::LIMIT]; Tasks::LIMIT];
    let mut c = 0;
    for k in 0..n {
        // stays: proof (a call's result laid at once in an array that is a loop's variable gets no generated proof)
        let v = wait(rows, bytes, tasks, m, k, c, w);
        w = v;
        c = child(rows, bytes, tasks, m, k, c);
    }
    w
}

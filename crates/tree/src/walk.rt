// The tasks in the order in which a tree is shown: a plan, then each of its components with all that is below it.
ghost use Rattle.std.specs.Prelude.{◌≡◌, ◌≤◌, ◌<◌, MatchOption};
ghost use Rattle.tree.specs.Walk.{Child, more_of_fn, Behind, Next, depth_of};

use limits::Tasks;
use state::Plan;

// The first task from `from` on whose parent and one is `x`.
fn child(plan: &[u32], x: usize, from: usize) -> Option<usize>
    ensures { MatchOption result (Child plan.now x from 32) (λ r. (r < 32) × Child plan.now x from r) }
{
    for t in from..Tasks::LIMIT {
        if state::cell(plan, Plan::PARENT, t) == x {
            return Some(t);
        }
    }
    None
}

// The task behind `t` and all that is below it: the next component of its plan, or of the plan above.
fn behind(plan: &[u32], t: usize) -> Option<usize>
    ensures { MatchOption result (Behind plan.now 32 t 32) (λ r. (r < 32) × Behind plan.now 32 t r) }
{
    let mut u = t;
    for _up in 0..Tasks::LIMIT {
        let x = state::cell(plan, Plan::PARENT, u);
        if x == 0 {
            return None;
        }
        match child(plan, x, more(u)) {
            Some(c) => return Some(c),
            None => u = x - 1,
        }
    }
    None
}

fn more(u: usize) -> usize
    ensures { result ≡ more_of_fn u }
{
    if u < Tasks::LIMIT { u + 1 } else { u }
}

// The task that is shown after `t`: its first component, or what is behind it.
pub fn next(plan: &[u32], t: usize) -> Option<usize>
    ensures { MatchOption result (Next plan.now t 32) (λ r. (r < 32) × Next plan.now t r) }
{
    if Tasks::LIMIT <= t {
        return None;
    }
    match child(plan, t + 1, 0) {
        Some(c) => Some(c),
        None => behind(plan, t),
    }
}

// How many plans are above a task, at most as many as there can be tasks.
pub fn depth(plan: &[u32], t: usize) -> usize
    ensures { (result ≤ 32) × (result ≡ depth_of plan.now 32 t) }
{
    let mut u = t;
    for n in 0..Tasks::LIMIT {
        let x = state::cell(plan, Plan::PARENT, u);
        if x == 0 {
            return n;
        }
        u = x - 1;
    }
    Tasks::LIMIT
}

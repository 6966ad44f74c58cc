// 8.5.11: the values that the rows of the Changes table ask for, worked out against the old state and gathered in a scratch.
#![tactic(auto)]

ghost use Rattle.std.specs.Prelude.{◌≡◌, ◌<◌, ◌≤◌};
ghost use Rattle.gathering.specs.Rows.{TakesRow};
ghost use Rattle.gathering.specs.Gathered.{Gathered};

use changes::{Column, Row};
use limits::{Assignments, Changes, DataItems};
use state::Plan;

// The property of a value.
const VALUE: usize = Column::VALUE as usize;

// Takes in the value of the i-th row, if it is one of a value: its number is that of the assignment.
fn take(
    x: &[u32],
    b: &[u8],
    f: &[u32],
    s: &[u32],
    o: &[u32],
    i: usize,
    news: &mut [u32],
    texts: &mut [u8],
)
    requires { i < 1024 }
    ensures { TakesRow x.now b.now f.now s.now o.now i news.old news.new texts.old texts.new }
{
    if parts::number(o, Row::CELLS * i + Row::PROPERTY) != VALUE {
        return;
    }
    let a = parts::number(o, Row::CELLS * i + Row::NUMBER);
    if Assignments::LIMIT <= a {
        return;
    }
    let d = parts::number(f, Plan::ASSIGNED_ITEM + a);
    if DataItems::LIMIT <= d {
        return;
    }
    let task = parts::number(f, Plan::ASSIGNING_TASK + a);
    let end = parts::number(f, Plan::ASSIGNED_END + a);
    let v = truths::value_at(x, b, f, s, task, end);
    assigning::gather(b, v, d, news, texts);
}

// The values of the first `m` rows, at most as many as the Changes table has.
pub fn gather(
    x: &[u32],
    b: &[u8],
    f: &[u32],
    s: &[u32],
    o: &[u32],
    m: usize,
    news: &mut [u32],
    texts: &mut [u8],
)
    ensures { Gathered x.now b.now f.now s.now o.now m news.old news.new texts.old texts.new }
{
    for i in 0..m.min(Changes::ROWS) {
        take(x, b, f, s, o, i, news, texts);
    }
}

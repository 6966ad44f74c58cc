// One cycle of a run: the rows that it is going to enact, the run of one cycle, and what they did.
ghost use Rattle.std.specs.Prelude.{◌≡◌, ◌<◌, ◌≤◌};
ghost use Rattle.runs.specs.Run.{RunsAlone};
ghost use Rattle.advise.specs.RunTold.{enactedb, boundedb, least_of, after_of};

use crate::{assigned, done};
use changes::Row;
use limits::{Changes, WaitTable};
use runs::Ran;
use sentences::write;

// The cells of a Changes table.
const CHANGES: usize = Changes::ROWS * Row::CELLS;

// Whether a run enacted a cycle.
fn is_enacted(r: Ran) -> bool
    ensures { result ≡ enactedb r }
{
    match r {
        Ran::Quiet(n) | Ran::Bounded(n) | Ran::Exception(n) => 0 < n,
        Ran::Refused(_) => false,
    }
}

// Whether a run ended by its bound.
pub fn is_bounded(r: Ran) -> bool
    ensures { result ≡ boundedb r }
{
    matches!(r, Ran::Bounded(_))
}

// At most one.
fn least(n: u32) -> u32
    ensures { (result ≡ least_of n) × (result ≤ 1) }
{
    n.min(1)
}

// The reply to i cycles, each of which was bounded, and one more. Behind a bounded cycle none is refused.
pub fn after(i: u32, r: Ran) -> Ran
    requires { i < 256 }
    ensures { result ≡ after_of i r }
{
    match r {
        Ran::Quiet(n) => Ran::Quiet(i + least(n)),
        Ran::Bounded(_) => Ran::Bounded(i + 1),
        Ran::Exception(n) => Ran::Exception(i + least(n)),
        Ran::Refused(n) => {
            if i == 0 {
                return Ran::Refused(n);
            }
            Ran::Quiet(i)
        }
    }
}

// The cycle that is the n-th: what its m rows did, and the values that they gave.
fn tell(rows: &[u32], texts: &[u8], plan: &[u32], out: &[u32], m: usize, news: &[u32], n: u32) {
    write::text(b"cycle ");
    io::print_decimal(pieces::STDOUT_FILENO, u64::from(n));
    write::text(b":");
    done::tell(rows, texts, plan, out, m);
    assigned::tell(rows, texts, plan, news);
    write::text(b"\n");
    assigned::collisions(rows, texts, plan, out, m, news);
}

// The cycle that is the n-th. Its rows and values are worked out first, from the tables as they are before it.
pub fn enact(
    rows: &[u32],
    parts: &[u32],
    texts: &mut [u8],
    plan: &[u32],
    waits: WaitTable,
    state: &mut [u32],
    n: u32,
) -> Ran
    ensures { RunsAlone 1 1024 parts.now texts.old plan.now waits state.old texts.new state.new result }
{
    let mut out = [0u32; CHANGES];
    let mut news = [0u32; assigned::NEWS];
    let m = asking::ask(parts, texts, plan, waits, state, &mut out);
    assigned::gather(parts, texts, plan, state, &out, m, &mut news);
    done::hush(&mut out, m, state);
    let r = runs::run_alone(parts, texts, plan, waits, state, Changes::ROWS, 1);
    if is_enacted(r) {
        tell(rows, texts, plan, &out, m, &news, n);
    }
    r
}

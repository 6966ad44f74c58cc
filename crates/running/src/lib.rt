// 8.3.2, RunEngine, with document 01's bound, turn by turn: review all; quiet, bounded, or enact and count; an exception stops.
// The rows that are asked for are numbers here; who runs the turns puts them into the lent Changes table and takes them back.
#![tactic(auto)]

ghost use Rattle.std.specs.Prelude.{◌≡◌, false, ◌+◌, ◌<◌, ◌≤◌};
ghost use Rattle.running.specs.Run.{AskedNow, Turned, made, Decided, Nexts};

use change_rows::Asked;
use endings::Ending;
use limits::WaitTable;
use state::Header;

// Where a run stands: whether it goes on with the rows that are asked for, or how it ended; the number of cycles that it enacted; and how many rows are lent.
#[derive(Drop)]
pub struct Turn {
    pub going: bool,
    pub ending: u32,
    pub cycles: u32,
    pub lent: usize,
    pub asked: Asked,
}

// The rows that a cycle asks for.
fn ask(x: &[u32], b: &[u8], f: &[u32], w: WaitTable, s: &[u32]) -> Asked
    ensures asked_now { AskedNow x.now b.now f.now w s.now result.cells result.n }
    ensures few { result.n ≤ 576 }
{
    let mut cells = [0u32; Asked::NUMBERS];
    let m = asking::ask(x, b, f, w, s, &mut cells);
    let n = changes::bounded(&cells, m);
    Asked { n, cells }
}

fn ended(ending: u32, cycles: u32, lent: usize, asked: Asked) -> Turn
    ensures { result ≡ made false ending cycles lent asked }
{
    Turn {
        going: false,
        ending,
        cycles,
        lent,
        asked,
    }
}

// After so many cycles: quiet if no row is asked for, bounded if there are as many as may be, else it goes on.
fn decide(asked: Asked, cycles: u32, lent: usize, bound: u64) -> Turn
    ensures { Decided bound cycles lent asked result }
{
    if asked.n == 0 {
        ended(Ending::QUIET, cycles, lent, asked)
    } else if bound <= u64::from(cycles) {
        ended(Ending::BOUNDED, cycles, lent, asked)
    } else {
        Turn {
            going: true,
            ending: Ending::NONE,
            cycles,
            lent,
            asked,
        }
    }
}

// The first turn. `x` are the parts, `b` the text bytes, `f` the plan, `w` who waits for whom, `s` the state.
pub fn first(
    x: &[u32],
    b: &[u8],
    f: &[u32],
    w: WaitTable,
    s: &[u32],
    lent: usize,
    bound: u64,
) -> Turn
    ensures { Turned bound lent x.now b.now f.now w s.now b.now s.now result }
{
    decide(ask(x, b, f, w, s), 0, lent, bound)
}

// The next turn: the rows are enacted and counted; an exception stops, else it is decided anew.
pub fn next(
    x: &[u32],
    b: &mut [u8],
    f: &[u32],
    w: WaitTable,
    s: &mut [u32],
    asked: Asked,
    turn: Turn,
    bound: u64,
) -> Turn
    requires { turn.cycles < 256 }
    ensures { Nexts bound turn.lent x.now f.now w b.old s.old asked.cells asked.n turn.cycles b.new s.new result × (result.cycles ≡ turn.cycles + 1) }
{
    cycles::enact(x, b, f, s, &asked.cells, asked.n);
    let k = turn.cycles + 1;
    if blocks::cell(s, Header::FLAG) != 0 {
        ended(Ending::EXCEPTION, k, turn.lent, asked)
    } else {
        decide(ask(x, b, f, w, s), k, turn.lent, bound)
    }
}

// Last season's sheets: a guideline on file descriptor 3, a sheet on standard input, a line for each field; with the argument --confirm,
// actions are confirmed. Each line is a series of calls of its own, and comes back with the values of all data items, the actions that were
// reached, and how it ended. The answer goes to standard output, what is told beside it to standard error, and to file descriptor 4 why the
// status is not 0: `g` if the guideline is refused, `r` if something of the sheet is.
#![tactic(auto)]

mod buffer;
mod chunks;
mod fields;
mod first_line;
mod joined;
mod one_line;
mod one_value;
mod records;
mod reports;
mod until_quiet;

use joined::Cells;
use limits::{WaitTable, Waits};
use load::Reply;
use season_answer::Size;
use std::env::Env;

// The guideline.
const GUIDELINE: i32 = 3;

fn confirms(rt: HostRuntime) -> bool {
    let mut argument = [0u8; 16];
    let n = rt.arg(1, &mut argument).unwrap_or(0);
    typed_value::lexemes::is_word(&argument, 0, n, b"--confirm")
}

// What load left, as one table of cells.
fn all_of(
    rt: HostRuntime,
    parts: &[u32],
    plan: &[u32],
    waits: WaitTable,
    texts: &[u8],
    state: &[u32],
) {
    let mut tables = [0u32; Cells::ALL];
    joined::join(parts, plan, state, &mut tables);
    on_sheet(rt, &tables, waits, texts);
}

// Room for what is written.
fn room() -> [u8; Size::BUFFER] {
    [0; Size::BUFFER]
}

// Reads the sheet through buffers, and answers it.
fn on_sheet(rt: HostRuntime, tables: &[u32], waits: WaitTable, texts: &[u8]) {
    let mut chunk = io::large_buffer();
    let mut kept = [0u8; Size::KEPT];
    let mut ends = [0usize; season_answer::Column::LIMIT];
    let mut columns = [0u32; season_answer::Column::LIMIT];
    let mut out = room();
    let mut stdin = rt.stdin();
    chunks::answer(
        &mut stdin,
        tables,
        waits,
        texts,
        &mut chunk,
        &mut kept,
        &mut ends,
        &mut columns,
        &mut out,
        confirms(rt),
    );
}

// Loads the guideline.
fn open(rt: HostRuntime, text: &[u8]) {
    let mut rows = [0u32; limits::Rows::CELLS];
    let mut parts = [0u32; Cells::PARTS];
    let mut plan = [0u32; Cells::PLAN];
    let mut waits = [[false; Waits::SIDE]; Waits::SIDE];
    let mut texts = io::large_buffer();
    let mut state = [0u32; Cells::STATE];
    match load::load(
        text, &mut rows, &mut parts, &mut plan, &mut waits, &mut texts, &mut state,
    ) {
        Reply::Done => all_of(rt, &parts, &plan, waits, &texts, &state),
        Reply::Refused(number, place) => reports::guideline(number, place),
    }
}

fn main(rt: HostRuntime) {
    let mut text = io::large_buffer();
    let n = io::read_full(GUIDELINE, &mut text);
    if let Some(text) = text.get(..n) {
        open(rt, text);
    }
}

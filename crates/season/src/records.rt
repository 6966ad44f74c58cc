// A record of the sheet, which ended: it is answered, and the next begins.
ghost use Rattle.std.specs.Prelude.{◌≡◌, length};
ghost use Rattle.season.specs.UntilQuiet.{line};
ghost use Rattle.season.specs.Lines as sheet;
ghost use Rattle.season.specs.OneLine.{RecordAnswered};

use crate::buffer::room;
use crate::joined::plan_of;
use crate::one_line::Season;
use crate::{one_line, reports};
use limits::WaitTable;
use separated::{Fault, Scan};

// How far it is: in reading, in the buffer before standard output, and in lines of the sheet and of the answer.
#[derive(Clone, Copy)]
pub struct Work {
    pub scan: Scan,
    pub o: usize,
    pub line: u64,
    pub answered: u64,
}

// So many lines take about a second.
const STRIDE: u64 = 8_192;

fn tell_progress(answered: u64) {
    if answered % STRIDE == 0 {
        reports::progress(answered);
    }
}

// A record from here on.
pub fn begin(lines: u64, o: usize, answered: u64) -> Work
    ensures { result ≡ sheet.work lines o answered }
{
    Work {
        scan: separated::begin(lines),
        o,
        line: lines.saturating_add(1),
        answered,
    }
}

// Whether the record is none, which is told.
fn is_spoilt(scan: Scan, line: u64, many: usize) -> bool
    ensures { result ≡ sheet.is_spoilt scan many }
{
    if scan.fault != Fault::NONE {
        reports::fault(line, scan.wrong, scan.fault);
        return true;
    }
    if scan.fields != many {
        reports::fields(line, scan.fields, many);
        return true;
    }
    false
}

fn answered_at(
    tables: &[u32],
    waits: WaitTable,
    texts: &[u8],
    columns: &[u32],
    kept: &[u8],
    ends: &[usize],
    s: Season,
    w: Work,
    out: &mut [u8],
) -> usize
    ensures { RecordAnswered tables.now texts.now waits (line columns.now s.many kept.now ends.now s.confirms) s.separator w.scan out.old out.new (sheet.room_at (length out.old) w.o) result }
{
    let from = room(out, w.o);
    if is_spoilt(w.scan, w.line, s.many) {
        return one_line::unread_line(plan_of(tables), columns, s, out, from);
    }
    one_line::answer(
        tables, waits, texts, columns, kept, ends, s, w.line, out, from,
    )
}

// Answers the record.
pub fn answer(
    tables: &[u32],
    waits: WaitTable,
    texts: &[u8],
    columns: &[u32],
    kept: &[u8],
    ends: &[usize],
    s: Season,
    w: Work,
    out: &mut [u8],
) -> Work
    ensures { (result ≡ sheet.work w.scan.lines result.o (sheet.one_more w.answered)) × RecordAnswered tables.now texts.now waits (line columns.now s.many kept.now ends.now s.confirms) s.separator w.scan out.old out.new (sheet.room_at (length out.old) w.o) result.o }
{
    let o = answered_at(tables, waits, texts, columns, kept, ends, s, w, out);
    let answered = w.answered.saturating_add(1);
    tell_progress(answered);
    begin(w.scan.lines, o, answered)
}

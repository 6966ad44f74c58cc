// The first line of the sheet.
ghost use Rattle.season.specs.Chunks.{columns_read};
ghost use Rattle.std.specs.Prelude.{◌≡◌};
ghost use Rattle.separated.specs.Reading.{read, reached};
ghost use Rattle.season.specs.FirstLine.{behind_mark, first_line, is_line, well_line, Headed};

use crate::reports;
use season_answer::heading;
use separated::{Fault, Scan, Taken};

// The bytes of a byte order mark, which some programs write before the first line.
fn behind_mark(chunk: &[u8]) -> usize
    ensures { result ≡ behind_mark chunk.now }
{
    match chunk {
        [0xef, 0xbb, 0xbf, ..] => 3,
        _ => 0,
    }
}

// The record that the first chunk begins with; a shorter chunk than the buffer is all of the sheet.
pub fn take(chunk: &[u8], separator: u8, kept: &mut [u8], ends: &mut [usize]) -> Taken
    ensures { reached result.at (read result.scan kept.new ends.new) ≡ first_line separator chunk.now kept.old ends.old }
{
    let t = separated::take(
        chunk,
        behind_mark(chunk),
        separated::begin(0),
        separator,
        kept,
        ends,
    );
    if t.scan.done {
        return t;
    }
    Taken {
        at: t.at,
        scan: separated::finish(t.scan, ends),
    }
}

// Whether it can be read.
fn is_line(scan: Scan) -> bool
    ensures { result ≡ is_line scan }
{
    if !scan.began {
        reports::no_heading();
        return false;
    }
    if scan.fault != Fault::NONE {
        reports::fault(1, scan.wrong, scan.fault);
        return false;
    }
    true
}

// Whether it names the columns of a sheet for the guideline; what is wrong is told.
pub fn is_well(
    scan: Scan,
    plan: &[u32],
    texts: &[u8],
    kept: &[u8],
    ends: &[usize],
    columns: &mut [u32],
) -> bool
    ensures { (result ≡ well_line scan plan.now texts.now kept.now ends.now columns.old) × (columns.new ≡ columns_read scan plan.now texts.now kept.now ends.now columns.old) }
{
    if !is_line(scan) {
        return false;
    }
    let well = season_answer::read_columns(plan, texts, kept, ends, scan.fields, columns);
    if !well {
        reports::refused();
    }
    well
}

// The first line of the answer, if all is well.
pub fn answer(
    well: bool,
    plan: &[u32],
    texts: &[u8],
    columns: &[u32],
    many: usize,
    kept: &[u8],
    ends: &[usize],
    separator: u8,
    out: &mut [u8],
) -> usize
    ensures { Headed well plan.now texts.now columns.now many kept.now ends.now separator out.old out.new result }
{
    if well {
        heading(plan, texts, columns, many, kept, ends, separator, out, 0)
    } else {
        0
    }
}

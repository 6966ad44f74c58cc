// Every row, by kind, component and property; then the time and the Exception flag.
ghost use Rattle.replay.specs.Rows.{buffer, Writes, with_room, Series, RowListed, ComponentRows, IsThere, KindListed, AllListed, RowsAnswered};
ghost use Rattle.replay.specs.Calls.{RowAnswered};
ghost use Rattle.transcript.specs.Answers.{row_lined};

use crate::shown::{is_refused, is_row, refusal};
use digits::{byte, word};
use limits::{Sources, WaitTable};
use row_read::{Kind, Properties, read};
use row_shown::Row;
use transcript::buffer::room;
use transcript::{counted, refused_line, shown};

// How many kinds section 10 has.
const KINDS: u64 = 7;

// The property that every component has.
const CLASS: u64 = 0;

// The cells of the state that no row tells.
const FLAG: usize = 1;

const TIME: usize = 2;

// The line of a row, where the buffer has room.
fn row_line(
    texts: &[u8],
    kind: u64,
    number: u64,
    property: u64,
    row: Row,
    out: &mut [u8],
    o: usize,
) -> usize
    ensures { Writes (with_room (buffer out.old o)) (buffer out.new result) (row_lined texts.now kind number property row) }
{
    let from = room(out, o);
    transcript::row(texts, kind, number, property, row, out, from)
}

// What the rows are read from.
#[derive(Clone, Copy)]
pub struct View<'a> {
    pub texts: &'a [u8],
    pub plan: &'a [u32],
    pub waits: &'a WaitTable,
    pub state: &'a [u32],
}

impl<'a> View<'a> {
    // The line of a row's value.
    pub fn value(self, kind: u64, number: u64, property: u64, out: &mut [u8], o: usize) -> usize
        ensures { RowAnswered kind number property self.entry.texts.now self.entry.plan.now self.entry.waits.now self.entry.state.now (buffer out.old o) (buffer out.new result) }
    {
        let row = read(self.plan, *self.waits, self.state, kind, number, property);
        let p = shown(self.texts, row, out, o);
        byte(b'\n', out, p)
    }

    // The line of a row, where there is one.
    fn row(self, kind: u64, number: u64, property: u64, out: &mut [u8], o: usize) -> usize
        ensures { RowListed self.entry.texts.now self.entry.plan.now self.entry.waits.now self.entry.state.now kind number property (buffer out.old o) (buffer out.new result) }
    {
        let row = read(self.plan, *self.waits, self.state, kind, number, property);
        if is_row(row.shown) {
            row_line(self.texts, kind, number, property, row, out, o)
        } else {
            o
        }
    }

    // The rows of a component.
    fn component(self, kind: u64, number: u64, out: &mut [u8], o: usize) -> usize
        ensures { ComponentRows self.entry.texts.now self.entry.plan.now self.entry.waits.now self.entry.state.now kind number (buffer out.old o) (buffer out.new result) }
    {
        let mut p = o;
        for property in 0..Properties::NUMBER {
            p = self.row(kind, number, property, out, p);
        }
        p
    }

    // Whether there is this component: each has a class.
    fn is_there(self, kind: u64, number: u64) -> bool
        ensures { IsThere self.entry.plan.now self.entry.waits.now self.entry.state.now kind number result }
    {
        is_row(read(self.plan, *self.waits, self.state, kind, number, CLASS).shown)
    }

    // The rows of the components of a kind. There are no more of any kind than there may be sources.
    fn of_kind(self, kind: u64, out: &mut [u8], o: usize) -> usize
        ensures { KindListed self.entry.texts.now self.entry.plan.now self.entry.waits.now self.entry.state.now kind (buffer out.old o) (buffer out.new result) }
    {
        let mut p = o;
        for number in 0..Sources::LIMIT as u64 {
            if !self.is_there(kind, number) {
                return p;
            }
            p = self.component(kind, number, out, p);
        }
        p
    }

    fn of_kinds(self, out: &mut [u8], o: usize) -> usize
        ensures { Series (KindListed self.entry.texts.now self.entry.plan.now self.entry.waits.now self.entry.state.now) 7 (buffer out.old o) (buffer out.new result) }
    {
        let mut p = o;
        for kind in 0..KINDS {
            p = self.of_kind(kind, out, p);
        }
        p
    }

    fn listed(self, out: &mut [u8], o: usize) -> usize
        ensures { AllListed self.entry.texts.now self.entry.plan.now self.entry.waits.now self.entry.state.now (buffer out.old o) (buffer out.new result) }
    {
        let p = self.of_kinds(out, o);
        let from = room(out, p);
        let q = counted(b"time", blocks::cell(self.state, TIME), out, from);
        let r = counted(b"flag", blocks::cell(self.state, FLAG), out, q);
        word(b".\n", out, r)
    }

    // The answer to `rows`.
    pub fn all(self, out: &mut [u8], o: usize) -> usize
        ensures { RowsAnswered self.entry.texts.now self.entry.plan.now self.entry.waits.now self.entry.state.now (buffer out.old o) (buffer out.new result) }
    {
        let root = read(self.plan, *self.waits, self.state, Kind::TASK, 0, CLASS);
        if is_refused(root.shown) {
            refused_line(refusal(root.shown), 0, out, o)
        } else {
            self.listed(out, o)
        }
    }
}

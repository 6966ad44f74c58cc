// The bare names in expressions that are read as text because no data item has them. A slip of the pen makes such a name, and with it a rule that silently never fires.
ghost use Rattle.std.specs.Prelude.{◌≡◌, false, ◌||◌, length};
ghost use Rattle.sentences.specs.Alike.{like};
ghost use Rattle.explain_rows.specs.Firsts.{FirstOf};
ghost use Rattle.bare_tokens.specs.Listed.{passing};
ghost use Rattle.bare_names.specs.Told as say;

use bare_tokens::{Counts, collect};
use leaves::names::inside;
use leaves::{cell, fits};
use limits::{DataItems, Expressions, Tasks, TokenList};
use sentences::slips::{alike, folded};
use sentences::{slips, write};
use tokens::Read;
use values::Handle;

// The tokens of a text.
#[derive(Clone, Copy)]
struct Tokens<'a> {
    text: &'a [u8],
    places: &'a [usize],
    lengths: &'a [usize],
}

impl<'a> Tokens<'a> {
    // The name that the token i is, without its quotes.
    fn name(self, i: usize, out: &mut [u8; Handle::TEXT_LIMIT]) -> usize
        requires { length out.old ≡ 48 }
        ensures { say.Named self.entry.text.now self.entry.places.now self.entry.lengths.now i out.old out.new result }
    {
        let at = cell(self.places, i);
        let n = cell(self.lengths, i);
        if !fits(self.text, at, n) {
            return 0;
        }
        let s = inside(self.text, at, n);
        folded(self.text, s.at, s.n, out)
    }

    // Whether the name of the token i is this one, or a slip for it.
    fn meets(self, i: usize, w: &[u8], slip: bool) -> bool
        ensures { result ≡ like slip w.now (say.token_name self.entry.text.now self.entry.places.now self.entry.lengths.now i) }
    {
        let mut b = [0u8; Handle::TEXT_LIMIT];
        let m = self.name(i, &mut b);
        alike(w, &b[..m], slip)
    }

    // The first of a list's tokens, up to `to`, that has the name or is a slip for it.
    fn find(self, list: &[usize], to: usize, w: &[u8], slip: bool) -> Option<usize>
        ensures { FirstOf (say.met_at self.entry.text.now self.entry.places.now self.entry.lengths.now slip w.now list.now) to result }
    {
        (0..to).find(|j| self.meets(cell(list, *j), w, slip))
    }

    // How many of a list's tokens, up to `to`, have the name.
    fn times(self, list: &[usize], to: usize, w: &[u8]) -> usize
        ensures { result ≡ length (passing (say.met_at self.entry.text.now self.entry.places.now self.entry.lengths.now false w.now list.now) to) }
    {
        let mut c = 0usize;
        for j in 0..to {
            c += usize::from(self.meets(cell(list, j), w, false));
        }
        c
    }

    // The token i as it is written.
    fn spelt(self, i: usize) {
        let at = cell(self.places, i);
        let n = cell(self.lengths, i);
        if fits(self.text, at, n) {
            write::part(self.text, at, at + n);
        }
    }

    // What the name may be a slip for.
    fn slip(self, i: usize) {
        write::text(b"; a letter off ");
        self.spelt(i);
    }

    // How often it stands there, and that the token i is the first.
    fn tally(self, i: usize, c: usize) {
        write::text(b": ");
        write::number(c);
        write::text(if c == 1 {
            b" time, in "
        } else {
            b" times, first in "
        });
        slips::place(self.text, cell(self.places, i));
    }
}

// What a name may have been meant for: it is a task's; the data item, or the bare name, of this number in its list is a letter off.
#[derive(Drop)]
enum Meant {
    Task,
    Item(usize),
    Name(usize),
    Nothing,
}

// The tokens that are names, and how many there are: of data items, of tasks, and bare in expressions.
#[derive(Clone, Copy)]
struct Names<'a> {
    tokens: Tokens<'a>,
    items: &'a [usize],
    tasks: &'a [usize],
    bare: &'a [usize],
    counts: Counts,
}

impl<'a> Names<'a> {
    fn intended(self, w: &[u8]) -> Meant
        ensures { say.Means self.entry.tokens.text.now self.entry.tokens.places.now self.entry.tokens.lengths.now self.entry.items.now self.entry.tasks.now self.entry.bare.now self.entry.counts w.now result }
    {
        let t = self.tokens;
        let c = self.counts;
        if t.find(self.tasks, c.tasks, w, false).is_some() {
            Meant::Task
        } else if let Some(j) = t.find(self.items, c.items, w, true) {
            Meant::Item(j)
        } else if let Some(k) = t.find(self.bare, c.bare, w, true) {
            Meant::Name(k)
        } else {
            Meant::Nothing
        }
    }

    // .. as it is told.
    fn remark(self, m: Meant) {
        match m {
            Meant::Task => write::text(b"; the name of a task"),
            Meant::Item(j) => self.tokens.slip(cell(self.items, j)),
            Meant::Name(k) => self.tokens.slip(cell(self.bare, k)),
            Meant::Nothing => {}
        }
    }

    // Whether the k-th bare name, w, is to be told: no data item has it, and none before it is the same.
    fn is_new(self, k: usize, w: &[u8]) -> bool
        ensures { result ≡ say.is_new self.entry.tokens.text.now self.entry.tokens.places.now self.entry.tokens.lengths.now self.entry.items.now self.entry.bare.now self.entry.counts k w.now }
    {
        let t = self.tokens;
        t.find(self.items, self.counts.items, w, false).is_none()
            && t.find(self.bare, k, w, false).is_none()
    }

    // The name w of the token i: how often it stands there, where first, and what it may have been meant for.
    fn tell(self, i: usize, w: &[u8]) {
        write::text(b"  ");
        self.tokens.spelt(i);
        self.tokens
            .tally(i, self.tokens.times(self.bare, self.counts.bare, w));
        self.remark(self.intended(w));
        write::text(b"\n");
    }

    // The k-th bare name, w, if it is new; whether one was told by then.
    fn of_name(self, k: usize, told: bool, w: &[u8]) -> bool
        ensures { result ≡ (told || say.is_new self.entry.tokens.text.now self.entry.tokens.places.now self.entry.tokens.lengths.now self.entry.items.now self.entry.bare.now self.entry.counts k w.now) }
    {
        if !self.is_new(k, w) {
            return told;
        }
        if !told {
            write::text(b"Names that no data item has, and that are read as text:\n");
        }
        self.tell(cell(self.bare, k), w);
        true
    }

    // One name of the list; whether one was told by then.
    fn entry(self, k: usize, told: bool) -> bool
        ensures { result ≡ say.told_by self.entry.tokens.text.now self.entry.tokens.places.now self.entry.tokens.lengths.now self.entry.items.now self.entry.bare.now self.entry.counts k told }
    {
        let mut a = [0u8; Handle::TEXT_LIMIT];
        let n = self.tokens.name(cell(self.bare, k), &mut a);
        self.of_name(k, told, &a[..n])
    }

    // All of them, one to a line.
    fn entries(self) {
        let mut told = false;
        for k in 0..self.counts.bare {
            told = self.entry(k, told);
        }
    }
}

// The list, of a guideline that reads.
pub fn list(text: &[u8]) {
    let mut kinds = [0u8; TokenList::LIMIT];
    let mut places = [0usize; TokenList::LIMIT];
    let mut lengths = [0usize; TokenList::LIMIT];
    if let Read::Tokens(n) = tokens::tokens(text, &mut kinds, &mut places, &mut lengths) {
        let mut items = [0usize; DataItems::LIMIT];
        let mut tasks = [0usize; Tasks::LIMIT];
        let mut bare = [0usize; Expressions::PARTS];
        let counts = collect(text, &kinds, &places, n, &mut items, &mut tasks, &mut bare);
        let names = Names {
            tokens: Tokens {
                text,
                places: &places,
                lengths: &lengths,
            },
            items: &items,
            tasks: &tasks,
            bare: &bare,
            counts,
        };
        names.entries();
    }
}

// New values of data items: gathered in a scratch while the old ones are still read, then written all at once.
// Of each item the scratch has a slot of cells (a mark, tags, numbers) and the bytes of its texts.
#![tactic(auto)]

ghost use Rattle.std.specs.Prelude.{◌≡◌, ◌↔◌, true, ◌+◌, ◌*◌, ◌<◌, get_or};
ghost use Rattle.blocks.specs.Blocks.{Same};
ghost use Rattle.assigning.specs.Gather.{Keeps, Gathers};
ghost use Rattle.assigning.specs.Store.{StoredOne, Stored, Collided};

use items::Form;
use limits::{DataItems, Guideline};
use state::Values;
use values::{Scalar, Value};

#[derive(Drop)]
pub struct Slot {}

impl Slot {
    pub const CELLS: usize = 36;

    // where the form begins, and its numbers
    pub const FORM: usize = 1;

    pub const NUMBERS: usize = Slot::FORM + Form::NUMBERS;

    // the marks: no value, one, a collision
    pub const EMPTY: u32 = 0;

    pub const ONE: u32 = 1;

    pub const COLLIDED: u32 = 2;
}

// Writes a mark and a value's form as the item's new value.
fn keep(cells: &[u32], out: &[u8], d: usize, mark: u32, news: &mut [u32], texts: &mut [u8])
    requires { d < 64 }
    ensures { Keeps cells.now out.now d mark news.old news.new texts.old texts.new }
{
    blocks::put_cell(news, Slot::CELLS * d, mark);
    blocks::copy_cells(cells, 0, news, Slot::CELLS * d + Slot::FORM, Form::CELLS);
    blocks::copy_bytes(out, 0, texts, Form::BYTES * d, Form::BYTES);
}

// Whether the item's new value has this form.
fn same(cells: &[u32], out: &[u8], d: usize, news: &[u32], texts: &[u8]) -> bool
    requires { d < 64 }
    ensures { (result ≡ true) ↔ (Same cells.now 0 news.now (36 * d + 1) 34 × Same out.now 0 texts.now (768 * d) 768) }
{
    blocks::same_cells(cells, 0, news, Slot::CELLS * d + Slot::FORM, Form::CELLS)
        && blocks::same_bytes(out, 0, texts, Form::BYTES * d, Form::BYTES)
}

// Takes in a value for the item `d`: the first, the same again, or another, which gives unknown.
pub fn gather(b: &[u8], v: Value, d: usize, news: &mut [u32], texts: &mut [u8])
    requires { d < 64 }
    ensures { Gathers b.now v d news.old news.new texts.old texts.new }
{
    let place = Guideline::LIMIT + Form::BYTES * d;
    let mut cells = [0u32; Form::CELLS];
    let mut out = [0u8; Form::BYTES];
    items::encode(b, v, place, &mut cells, &mut out);
    if blocks::cell(news, Slot::CELLS * d) == Slot::EMPTY {
        keep(&cells, &out, d, Slot::ONE, news, texts);
        return;
    }
    if same(&cells, &out, d, news, texts) {
        return;
    }
    items::encode(
        b,
        values::single(Scalar::Unknown),
        place,
        &mut cells,
        &mut out,
    );
    keep(&cells, &out, d, Slot::COLLIDED, news, texts);
}

// Writes the item's new value, if it has one, into the state and the text bytes.
fn store_one(news: &[u32], texts: &[u8], d: usize, s: &mut [u32], b: &mut [u8])
    requires { d < 64 }
    ensures { StoredOne news.now texts.now d s.old s.new b.old b.new }
{
    if blocks::cell(news, Slot::CELLS * d) == Slot::EMPTY {
        return;
    }
    blocks::copy_cells(
        news,
        Slot::CELLS * d + Slot::FORM,
        s,
        Values::TAGS + Values::CELLS * d,
        Values::CELLS,
    );
    blocks::copy_cells(
        news,
        Slot::CELLS * d + Slot::NUMBERS,
        s,
        Values::NUMBERS + Values::CELLS * d,
        Values::CELLS,
    );
    blocks::copy_bytes(
        texts,
        Form::BYTES * d,
        b,
        Guideline::LIMIT + Form::BYTES * d,
        Form::BYTES,
    );
}

// All of them.
pub fn store(news: &[u32], texts: &[u8], s: &mut [u32], b: &mut [u8])
    ensures { Stored news.now texts.now 64 s.old s.new b.old b.new }
{
    for d in 0..DataItems::LIMIT {
        store_one(news, texts, d, s, b);
    }
}

// Whether some item was given two values.
pub fn collided(news: &[u32]) -> bool
    ensures { (result ≡ true) ↔ Collided news.now }
{
    (0..DataItems::LIMIT).any(|d| blocks::cell(news, Slot::CELLS * d) == Slot::COLLIDED)
}

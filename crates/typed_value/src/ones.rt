// One value that is known without reading: unknown, or a text as it stands.
ghost use Rattle.std.specs.Prelude.{◌≡◌, set};
ghost use Rattle.paper_expressions.specs.Values.{unknown, text, one};
ghost use Rattle.typed_value.specs.Cells.{kept_text, tags_with, numbers_with, texts_with};

use crate::elements::Kind;
use crate::lists::put_number;
use crate::texts::copy;
use blocks::put_cell;

// The tag and the shape of one value.
fn put_tag(tags: &mut [u32], tag: u32)
    ensures { tags.new ≡ set (set tags.old 1 tag) 0 0 }
{
    put_cell(tags, 1, tag);
    put_cell(tags, 0, 0);
}

pub fn put_unknown(tags: &mut [u32], numbers: &mut [i64])
    ensures { (tags.new ≡ tags_with (one unknown) tags.old) × (numbers.new ≡ numbers_with (one unknown) numbers.old) }
{
    put_tag(tags, Kind::UNKNOWN);
    put_number(numbers, 1, 0);
}

pub fn put_text(s: &[u8], tags: &mut [u32], numbers: &mut [i64], bytes: &mut [u8])
    ensures { (tags.new ≡ tags_with (one (text (kept_text s.now))) tags.old) × (numbers.new ≡ numbers_with (one (text (kept_text s.now))) numbers.old) × (bytes.new ≡ texts_with (one (text (kept_text s.now))) bytes.old) }
{
    put_tag(tags, Kind::TEXT);
    put_number(numbers, 1, copy(s, 0, s.len(), bytes, 0));
}

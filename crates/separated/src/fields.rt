// The fields of a record that is kept.
ghost use Rattle.std.specs.Prelude.{◌≡◌, get_or};
ghost use Rattle.separated.specs.Records.{begins, field_of};

// Where the field i ends, and where it begins.
fn field_end(ends: &[usize], i: usize) -> usize
    ensures { result ≡ get_or ends.now i 0 }
{
    ends.get(i).copied().unwrap_or(0)
}

fn field_start(ends: &[usize], i: usize) -> usize
    ensures { result ≡ begins ends.now i }
{
    if i == 0 { 0 } else { field_end(ends, i - 1) }
}

// The bytes of the field i; none, if there is no such field.
pub fn field<'a>(kept: &'a [u8], ends: &[usize], i: usize) -> &'a [u8]
    ensures { result.now ≡ field_of kept.now ends.now i }
{
    kept.get(field_start(ends, i)..field_end(ends, i))
        .unwrap_or(&kept[..0])
}

// Lent cells, set to zero.
#![tactic(auto)]

ghost use Rattle.std.specs.Prelude.{◌≡◌, length, replicate};

pub fn clear(cells: &mut [u32])
    ensures { cells.new ≡ replicate (length cells.old) 0 }
{
    cells.fill(0);
}

pub fn clear_bytes(cells: &mut [u8])
    ensures { cells.new ≡ replicate (length cells.old) 0 }
{
    cells.fill(0);
}

pub fn clear_places(cells: &mut [usize])
    ensures { cells.new ≡ replicate (length cells.old) 0 }
{
    cells.fill(0);
}

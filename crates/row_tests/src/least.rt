// The smallest place so far.
ghost use Rattle.std.specs.Prelude.{◌≡◌};
ghost use Rattle.row_tests.specs.Least.{nearer as nearerOf};

// The smaller place.
pub fn nearer(best: Option<usize>, p: usize) -> Option<usize>
    ensures { result ≡ nearerOf best p }
{
    Some(best.map_or(p, |q| q.min(p)))
}

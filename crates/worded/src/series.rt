// What is told of more than one thing: the commas between them, and which numbers belong to one component.
ghost use Rattle.std.specs.Prelude.{◌≡◌};
ghost use Rattle.worded.specs.Among.{among_f};

use sentences::write;

// A comma, if something stands before it.
pub fn comma(any: bool) {
    if any {
        write::text(b", ");
    }
}

// Whether `n` is among the `count` numbers from `first` on: so the plan holds sources and assignments.
pub fn is_among(first: usize, count: usize, n: usize) -> bool
    ensures { result ≡ among_f first count n }
{
    first <= n && n - first < count
}

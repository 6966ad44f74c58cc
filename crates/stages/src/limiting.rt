// Refusal 6, after what is left out: the smallest place at which a token, an expression or a whole count is past its limit.
ghost use Rattle.std.specs.Prelude.{◌≡◌};
ghost use Rattle.stages.specs.Least.{least};
ghost use Rattle.stages.specs.Judged.{spot, Large, Whole, OverLimits, AnyOver};

use guideline_walk::Totals;
use limits::{Assignments, DataItems, Expressions, Sources, Tasks};

// The smaller of two places, if there are any.
fn earlier(a: Option<usize>, b: Option<usize>) -> Option<usize>
    ensures { spot result ≡ least (spot a) (spot b) }
{
    match (a, b) {
        (Some(p), Some(q)) => Some(p.min(q)),
        (None, _) => b,
        _ => a,
    }
}

// The first expression that is too deep or has a list that is too long.
fn large(t: Totals) -> Option<usize>
    ensures { Large t result }
{
    if t.large { Some(t.place) } else { None }
}

// Whether a whole count is passed, or a lent table is too short.
fn any_over(t: Totals, short: bool) -> bool
    ensures { AnyOver t short result }
{
    Tasks::LIMIT < t.tasks
        || DataItems::LIMIT < t.items
        || Expressions::PARTS < t.parts
        || Assignments::LIMIT < t.assignments
        || Sources::LIMIT < t.sources
        || short
}

// That, at the text's length.
fn whole(text: &[u8], t: Totals, short: bool) -> Option<usize>
    ensures { Whole text.now t short result }
{
    if any_over(t, short) {
        Some(text.len())
    } else {
        None
    }
}

// All of them.
pub fn over_limits(
    text: &[u8],
    kinds: &[u8],
    places: &[usize],
    lengths: &[usize],
    t: Totals,
    short: bool,
) -> Option<usize>
    ensures { OverLimits text.now kinds.now places.now lengths.now t short result }
{
    let token = token_tests::past_limit(text, kinds, places, lengths);
    let expression = large(t);
    let count = whole(text, t, short);
    earlier(token, earlier(expression, count))
}

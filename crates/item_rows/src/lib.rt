// The rows of a data item, as the plan and the state tell them.
#![tactic(auto)]

ghost use Rattle.std.specs.Prelude.{◌≡◌, ◌+◌, ◌*◌, ◌<◌, eqb, get_or};
ghost use Rattle.item_rows.specs.ItemValue.{CellsShow, ValueRow};
ghost use Rattle.item_rows.specs.ItemRow.{ItemRow};

use row_shown::{Class, Rank, Row, Shown};
use state::{Plan, Requested, Values};
use values::Value;

// Whether the data item `d` has a value.
pub fn has_value(s: &[u32], d: usize) -> bool
    requires { d < 64 }
    ensures { result ≡ eqb (get_or s.now (1864 + 17 * d) 0) 1 }
{
    blocks::cell(s, Values::NUMBERS + Values::CELLS * d) == 1
}

// The value that its cells show.
pub fn value_of(s: &[u32], d: usize) -> Value
    ensures { CellsShow s.now d result }
{
    let tags = truths::part(s, Values::TAGS, Values::ALL);
    let nums = truths::part(s, Values::NUMBERS, Values::ALL);
    evaluator::value(tags, nums, d)
}

// The value of the data item `d`, if it has one.
fn value(s: &[u32], d: usize) -> Row
    requires { d < 64 }
    ensures { ValueRow s.now d result }
{
    if has_value(s, d) {
        Row {
            shown: Shown::OfValue,
            value: value_of(s, d),
        }
    } else {
        row_shown::plain(Shown::NoRow)
    }
}

// The row of the property with the number `p` of the data item `d`.
pub fn item_row(f: &[u32], s: &[u32], d: usize, p: u64) -> Row
    requires { d < 64 }
    ensures { ItemRow f.now s.now d p result }
{
    match p {
        Rank::CLASS => row_shown::plain(Shown::OfClass(Class::DATA_ITEM)),
        Rank::NAME => row_shown::name(parts::number(f, Plan::ITEM_NAME + d)),
        Rank::TYPE => row_shown::plain(Shown::OfType(blocks::cell(f, Plan::ITEM_TYPE + d))),
        Rank::VALUE => value(s, d),
        Rank::REQUESTED => {
            let tag = blocks::cell(s, Requested::TAGS + d);
            row_shown::by_cells(tag, blocks::cell(s, Requested::NUMBERS + d))
        }
        _ => row_shown::plain(Shown::NoRow),
    }
}

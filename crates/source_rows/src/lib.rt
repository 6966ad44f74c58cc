// The rows of a source, as the plan tells them.
#![tactic(auto)]

ghost use Rattle.std.specs.Prelude.{◌<◌};
ghost use Rattle.source_rows.specs.SourceRow.{SourceRow};

use row_shown::{Class, Kind, Rank, Row, Shown};
use state::Plan;

// The row of the property with the number `p` of the source `n`: its name is that of its data item.
pub fn source_row(f: &[u32], n: usize, p: u64) -> Row
    requires { n < 128 }
    ensures { SourceRow f.now n p result }
{
    match p {
        Rank::CLASS => row_shown::plain(Shown::OfClass(Class::SOURCE)),
        Rank::NAME => {
            let d = parts::number(f, Plan::SOURCE_ITEM + n);
            row_shown::name(state::cell(f, Plan::ITEM_NAME, d))
        }
        Rank::DATA_ITEM => {
            let d = blocks::cell(f, Plan::SOURCE_ITEM + n);
            row_shown::plain(Shown::OfComponent(Kind::DATA_ITEM, d))
        }
        Rank::MANDATORY => row_shown::by_answer(blocks::cell(f, Plan::MANDATORY + n)),
        _ => row_shown::plain(Shown::NoRow),
    }
}

// 8.4, EnactChanges: every row of the Changes table at once. New values are worked out before the state is written.
#![tactic(auto)]

ghost use Rattle.std.specs.Prelude.{◌≡◌};
ghost use Rattle.holding.specs.Elsewhere.{Elsewhere};
ghost use Rattle.cycles.specs.Cycled.{Flags, Cycled};

use assigning::Slot;
use items::Form;
use limits::DataItems;
use state::Header;

// The cells and the bytes of the new values.
const NEWS: usize = Slot::CELLS * DataItems::LIMIT;

const TEXTS: usize = Form::BYTES * DataItems::LIMIT;

// The Exception flag is set if some item was given two values.
fn raise(news: &[u32], s: &mut [u32])
    ensures { Flags news.now s.old s.new }
{
    if assigning::collided(news) {
        blocks::put_cell(s, Header::FLAG, 1);
    }
}

// The first `m` rows into the state `s` and the text bytes `b`.
pub fn enact(x: &[u32], b: &mut [u8], f: &[u32], s: &mut [u32], o: &[u32], m: usize)
    ensures cycled { Cycled x.now b.old b.new f.now s.old s.new o.now m }
    ensures elsewhere { Elsewhere b.old s.old b.new s.new }
{
    let mut news = [0u32; NEWS];
    let mut texts = [0u8; TEXTS];
    gathering::gather(x, b, f, s, o, m, &mut news, &mut texts);
    enacting::enact(s, o, m);
    assigning::store(&news, &texts, s, b);
    raise(&news, s);
}

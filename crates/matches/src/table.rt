// The machine of the rules: a row for each state, a column for each kind of byte, a state written as its number counted from '0'.
ghost use Rattle.std.specs.Prelude.{◌≡◌, ◌<◌};
ghost use Rattle.matches.specs.Machine.{delta as deltaOf, accepts as acceptsOf, next_of, acc_of};

use crate::numbers::{ByteKind, State};

// The byte that state 0 is written as.
const ZERO: usize = b'0' as usize;

const DELTA: [u8; State::ENTRIES] = *b"\
00000000000000000000\
07700080000000000000\
0009:000000000000000\
000;<=00000000000000\
000000000000>0000000\
00000000?00000000000\
000000000@0000000000\
07770000000000000000\
888888AB888888888888\
00090000000000000000\
00090000000000000000\
000;0C00000000000000\
000;0=00000000000000\
000D0000000000000000\
>>>>>>>E>>>>A>>>>>>>\
00000000?00000000000\
0000000000F000000000\
00000000000000000000\
8888888B888888888888\
00:G0000000000000000\
00:D0000000000000000\
>>>>>>>E>>>>>>>>>>>>\
0000000000H000000000\
00:G0000000000000000\
HHHHHHHHHHIHHHHHHHHH\
HHHHHHHHHHJHHHHHHHHH\
HHHHHHHHHAJHHHHHHHHH\
0000LL000LL00MNOPQRL\
00000000000000000000\
0000000000000L000000\
00000000000000L00000\
0000000000000000L000\
000000000000000L0L00\
0000000000000000L000\
0000000000000000L000";

// Which states have a whole match behind them.
const ACCEPTS: [u8; State::COUNT] = *b"00000001010000010101100100001111110";

// Both tables are made once for a walk, and handed on.
#[tactic(auto, unfolding(crate::specs::Machine::delta))]
pub fn delta() -> [u8; State::ENTRIES]
    ensures { result ≡ deltaOf }
{
    DELTA
}

#[tactic(auto, unfolding(crate::specs::Machine::accepts))]
pub fn accepts() -> [u8; State::COUNT]
    ensures { result ≡ acceptsOf }
{
    ACCEPTS
}

// The state after a byte of a kind; 0 where the rule cannot take it.
#[tactic(auto, using(crate::proofs::Cert::entry_large), unfolding(crate::specs::Machine::next_of))]
pub fn next(delta: &[u8; State::ENTRIES], q: usize, k: usize) -> usize
    requires { (delta.now ≡ deltaOf) × (q < 35) × (k < 20) }
    ensures { result ≡ next_of q k }
{
    usize::from(delta[q * ByteKind::COUNT + k]) - ZERO
}

// The rule that stands at q has a whole match behind it.
#[tactic(auto, unfolding(crate::specs::Machine::acc_of))]
pub fn accepting(accepts: &[u8; State::COUNT], q: usize) -> bool
    requires { (accepts.now ≡ acceptsOf) × (q < 35) }
    ensures { result ≡ acc_of q }
{
    accepts[q] == b'1'
}

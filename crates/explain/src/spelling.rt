// Each terminal as a person writes it.
ghost use Rattle.std.specs.Prelude.{◌≡◌, [], get_or};
ghost use Rattle.explain.specs.Spelling.{spellings as spellingsOf, spellings_table};

use terminals::Terminal;

// The bytes of each terminal: how long its spelling is, the spelling, and blanks.
const WIDTH: usize = 24;

// Those of all terminals.
pub const TABLE: usize = WIDTH * Terminal::COUNT as usize;

const SPELLINGS: [u8; TABLE] = *b"\
\x05abort                  \x06action                 \x07against                \x03and                    \
\x03AND                    \x08argument               \x0dargument_name          \x0aattributes             \
\x0aautonomous             \x09candidate              \x07caption                \x0bchoice_mode            \
\x09completed              \x09component              \x0aconfirming             \x07context                \
\x0ccycle_repeat           \x0bcycle_until            \x04data                   \x04days                   \
\x08decision               \x0ddefault_value          \x0aderivation             \x0bdescription            \
\x0adirectives             \x03end                    \x07enquiry                \x09excluding              \
\x0bfalse_value            \x03for                    \x04goal                   \x05hours                  \
\x07include                \x08includes               \x04ltwh                   \x09mandatory              \
\x14mandatory_validation   \x07minutes                \x08multiple               \x0anetsupport             \
\x0aNetsupport             \x10number_of_cycles       \x07numeric                \x05oneof                  \
\x08optional               \x02or                     \x02OR                     \x0bparam_value            \
\x0aparameters             \x04plan                   \x0dpostcondition          \x0cprecondition           \
\x08priority               \x09procedure              \x05range                  \x0erecommendation         \
\x09result_of              \x13schedule_constraint    \x07seconds                \x06single                 \
\x06source                 \x0csupport_mode           \x08symbolic               \x04task                   \
\x08terminal               \x09terminate              \x07trigger                \x0atrue_value             \
\x04type                   \x04unit                   \x0ewait_condition         \x05weeks                  \
\x02::                     \x01;                      \x01.                      \x01,                      \
\x01(                      \x01)                      \x01[                      \x01]                      \
\x01:                      \x01=                      \x01#                      \x02++                     \
\x01<                      \x02<=                     \x02=<                     \x01>                      \
\x02>=                     \x02=>                     \x02!=                     \x01+                      \
\x01-                      \x01*                      \x01/                      \x06a name                 \
\x09yes or no              \x0ba data type            \x0aan integer             \x07a float                \
\x17a text in double quotes";

// The table, which is made once for all that is spelt.
pub fn spellings() -> [u8; TABLE]
    ensures { result ≡ spellings_table }
{
    SPELLINGS
}

// The spelling of the terminal k; none past the last.
pub fn spelling(t: &[u8; TABLE], k: u8) -> &[u8]
    requires { t.now ≡ spellings_table }
    ensures { result.now ≡ get_or spellingsOf k [] }
{
    if Terminal::COUNT <= k {
        return &[];
    }
    let at = usize::from(k) * WIDTH;
    let n = usize::from(t[at]);
    &t[at + 1..at + 1 + n]
}

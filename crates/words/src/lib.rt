// The reserved strings, and the atoms that 3.3 asks for in some places: one table, and one look-up.
#![tactic(auto)]

ghost use Rattle.std.specs.Prelude.{◌≡◌, Bool, true, ◌+◌, ◌≤◌, ◌<◌, length};
ghost use Rattle.paper_tokens.specs.Lexical.{part};
ghost use Rattle.words.specs.Entries.{table, places, Found, Same};

// The length of each string, and its bytes: the 95 reserved strings in the order of their terminals, yes and no, the ten data types.
const WORDS: [u8; Known::BYTES] = *b"\
\x05abort\x06action\x07against\x03and\x03AND\x08argument\x0dargument_name\x0aattributes\x0aautonomous\x09candidate\
\x07caption\x0bchoice_mode\x09completed\x09component\x0aconfirming\x07context\x0ccycle_repeat\x0bcycle_until\
\x04data\x04days\x08decision\x0ddefault_value\x0aderivation\x0bdescription\x0adirectives\x03end\x07enquiry\
\x09excluding\x0bfalse_value\x03for\x04goal\x05hours\x07include\x08includes\x04ltwh\x09mandatory\
\x14mandatory_validation\x07minutes\x08multiple\x0anetsupport\x0aNetsupport\x10number_of_cycles\x07numeric\x05oneof\
\x08optional\x02or\x02OR\x0bparam_value\x0aparameters\x04plan\x0dpostcondition\x0cprecondition\x08priority\
\x09procedure\x05range\x0erecommendation\x09result_of\x13schedule_constraint\x07seconds\x06single\x06source\
\x0csupport_mode\x08symbolic\x04task\x08terminal\x09terminate\x07trigger\x0atrue_value\x04type\x04unit\
\x0ewait_condition\x05weeks\x02::\x01;\x01.\x01,\x01(\x01)\x01[\x01]\x01:\x01=\x01#\x02++\x01<\x02<=\x02=<\x01>\
\x02>=\x02=>\x02!=\x01+\x01-\x01*\x01/\x03yes\x02no\x04text\x07integer\x07boolean\x08datetime\x04date\x04time\
\x04real\x0asetof_text\x0dsetof_integer\x0asetof_real";

// Where the known strings stand in their order.
#[derive(Drop)]
pub struct Known;

impl Known {
    // the reserved strings come first, each at the number of its terminal, and then yes and no
    pub const YES: usize = 95;

    pub const NO: usize = Known::FIRST_TYPE - 1;

    // the data types are the last
    pub const FIRST_TYPE: usize = 97;

    pub const LAST_TYPE: usize = Known::COUNT - 1;

    // how many strings there are: also the answer where none is found
    pub const COUNT: usize = 107;

    // the bytes of their table
    pub const BYTES: usize = 806;

    // Those that no other says, in the order of the definitions.
    pub fn places() -> [usize; 3]
        ensures { result ≡ places }
    {
        [Known::YES, Known::FIRST_TYPE, Known::COUNT]
    }
}

// The strings, which a look-up makes once and hands on.
fn words() -> [u8; Known::BYTES]
    ensures { result ≡ table }
{
    WORDS
}

// The n bytes of the text at a place are those of the table at p.
pub fn same(text: &[u8], at: usize, table: &[u8], p: usize, n: usize) -> bool
    requires { (at + n ≤ length text.now) × (p + n ≤ length table.now) }
    ensures { Same (part text.now at n) (part table.now p n) result }
{
    text[at..at + n] == table[p..p + n]
}

// .. and the string that stands there in the table, of this size, has n bytes.
pub fn stands(text: &[u8], at: usize, n: usize, table: &[u8], p: usize, size: usize) -> bool
    requires { (at + n ≤ length text.now) × (p + size ≤ length table.now) }
    ensures { Same (part text.now at n) (part table.now p size) result }
{
    size == n && same(text, at, table, p, n)
}

// Which of the strings the n bytes of the text at a place are; Known::COUNT for none.
pub fn look_up(text: &[u8], at: usize, n: usize) -> usize
    requires { at + n ≤ length text.now }
    ensures { Found (part text.now at n) result }
{
    let words = words();
    let mut p = 0;
    for i in 0..Known::COUNT {
        let size = usize::from(words[p]);
        if stands(text, at, n, &words, p + 1, size) {
            return i;
        }
        p += size + 1;
    }
    Known::COUNT
}

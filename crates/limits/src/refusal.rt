// The numbers of the refusals, each by a name. Those of load are tied once, by the function at the end, to the definitions; those of the other
// calls by the contract of each call.
ghost use Rattle.std.specs.Prelude.{◌≡◌};
ghost use Rattle.limits.specs.Limits.{refusals};

#[derive(Drop)]
pub struct Refusal;

impl Refusal {
    // the text is too long, or has a byte over 127
    pub const TEXT: u8 = 1;

    // no lexical rule matches
    pub const LEXICAL: u8 = 2;

    // the tokens are no guideline
    pub const GRAMMAR: u8 = 3;

    // a rule on names is broken
    pub const NAME: u8 = 4;

    // an expression has no fitting type
    pub const TYPE: u8 = 5;

    // a limit is passed, or a lent table is too short
    pub const LIMIT: u8 = 6;

    // nothing is loaded, or there was an exception
    pub const UNREADY: u8 = 7;

    // no task, or no data item, is named
    pub const NO_SUCH: u8 = 8;

    // a value is not of the declared type
    pub const VALUE: u8 = 9;

    // something is used that the first edition leaves out
    pub const LEFT_OUT: u8 = 10;

    // The refusals of load, in the order of its tests.
    pub fn numbers() -> [u8; 8]
        ensures { result ≡ refusals }
    {
        [
            Refusal::TEXT,
            Refusal::LEXICAL,
            Refusal::LIMIT,
            Refusal::GRAMMAR,
            Refusal::LEFT_OUT,
            Refusal::LIMIT,
            Refusal::NAME,
            Refusal::TYPE,
        ]
    }
}

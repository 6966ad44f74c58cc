// The numbers of the terminals, each by a name: the words and symbols that stand in double quotes in 3.2, and the kinds of the other tokens.
// All are tied once, by the function at the end, to the definitions.
#![tactic(auto)]

ghost use Rattle.std.specs.Prelude.{◌≡◌};
ghost use Rattle.terminals.specs.Numbers.{numbers as defined};

#[derive(Drop)]
pub struct Terminal;

impl Terminal {
    pub const ABORT: u8 = 0;

    pub const ACTION: u8 = 1;

    pub const AGAINST: u8 = 2;

    pub const AND: u8 = 3;

    pub const AND_UPPER: u8 = 4;

    pub const ARGUMENT: u8 = 5;

    pub const ARGUMENT_NAME: u8 = 6;

    pub const ATTRIBUTES: u8 = 7;

    pub const AUTONOMOUS: u8 = 8;

    pub const CANDIDATE: u8 = 9;

    pub const CAPTION: u8 = 10;

    pub const CHOICE_MODE: u8 = 11;

    pub const COMPLETED: u8 = 12;

    pub const COMPONENT: u8 = 13;

    pub const CONFIRMING: u8 = 14;

    pub const CONTEXT: u8 = 15;

    pub const CYCLE_REPEAT: u8 = 16;

    pub const CYCLE_UNTIL: u8 = 17;

    pub const DATA: u8 = 18;

    pub const DAYS: u8 = 19;

    pub const DECISION: u8 = 20;

    pub const DEFAULT_VALUE: u8 = 21;

    pub const DERIVATION: u8 = 22;

    pub const DESCRIPTION: u8 = 23;

    pub const DIRECTIVES: u8 = 24;

    pub const END: u8 = 25;

    pub const ENQUIRY: u8 = 26;

    pub const EXCLUDING: u8 = 27;

    pub const FALSE_VALUE: u8 = 28;

    pub const FOR: u8 = 29;

    pub const GOAL: u8 = 30;

    pub const HOURS: u8 = 31;

    pub const INCLUDE: u8 = 32;

    pub const INCLUDES: u8 = 33;

    pub const LTWH: u8 = 34;

    pub const MANDATORY: u8 = 35;

    pub const MANDATORY_VALIDATION: u8 = 36;

    pub const MINUTES: u8 = 37;

    pub const MULTIPLE: u8 = 38;

    pub const NETSUPPORT: u8 = 39;

    pub const NETSUPPORT_UPPER: u8 = 40;

    pub const NUMBER_OF_CYCLES: u8 = 41;

    pub const NUMERIC: u8 = 42;

    pub const ONEOF: u8 = 43;

    pub const OPTIONAL: u8 = 44;

    pub const OR: u8 = 45;

    pub const OR_UPPER: u8 = 46;

    pub const PARAM_VALUE: u8 = 47;

    pub const PARAMETERS: u8 = 48;

    pub const PLAN: u8 = 49;

    pub const POSTCONDITION: u8 = 50;

    pub const PRECONDITION: u8 = 51;

    pub const PRIORITY: u8 = 52;

    pub const PROCEDURE: u8 = 53;

    pub const RANGE: u8 = 54;

    pub const RECOMMENDATION: u8 = 55;

    pub const RESULT_OF: u8 = 56;

    pub const SCHEDULE_CONSTRAINT: u8 = 57;

    pub const SECONDS: u8 = 58;

    pub const SINGLE: u8 = 59;

    pub const SOURCE: u8 = 60;

    pub const SUPPORT_MODE: u8 = 61;

    pub const SYMBOLIC: u8 = 62;

    pub const TASK: u8 = 63;

    pub const TERMINAL: u8 = 64;

    pub const TERMINATE: u8 = 65;

    pub const TRIGGER: u8 = 66;

    pub const TRUE_VALUE: u8 = 67;

    pub const TYPE: u8 = 68;

    pub const UNIT: u8 = 69;

    pub const WAIT_CONDITION: u8 = 70;

    pub const WEEKS: u8 = 71;

    pub const DOUBLE_COLON: u8 = 72;

    pub const SEMICOLON: u8 = 73;

    pub const DOT: u8 = 74;

    pub const COMMA: u8 = 75;

    pub const LEFT_PARENTHESIS: u8 = 76;

    pub const RIGHT_PARENTHESIS: u8 = 77;

    pub const LEFT_BRACKET: u8 = 78;

    pub const RIGHT_BRACKET: u8 = 79;

    pub const COLON: u8 = 80;

    pub const EQUALS: u8 = 81;

    pub const HASH: u8 = 82;

    pub const PLUS_PLUS: u8 = 83;

    pub const LESS: u8 = 84;

    pub const LESS_EQUAL: u8 = 85;

    pub const EQUAL_LESS: u8 = 86;

    pub const GREATER: u8 = 87;

    pub const GREATER_EQUAL: u8 = 88;

    pub const EQUAL_GREATER: u8 = 89;

    pub const NOT_EQUAL: u8 = 90;

    pub const PLUS: u8 = 91;

    pub const MINUS: u8 = 92;

    pub const TIMES: u8 = 93;

    pub const DIVIDE: u8 = 94;

    pub const OTHER_ATOM: u8 = 95;

    pub const YES_OR_NO: u8 = 96;

    pub const DATA_TYPE: u8 = 97;

    pub const INTEGER: u8 = 98;

    pub const FLOAT: u8 = 99;

    pub const STRING: u8 = 100;

    // How many terminals there are; those below the first atom are reserved.
    pub const COUNT: u8 = 101;

    // Every terminal, in the order of the definitions.
    pub fn numbers() -> [u8; 102]
        ensures { result ≡ defined }
    {
        [
            Terminal::ABORT,
            Terminal::ACTION,
            Terminal::AGAINST,
            Terminal::AND,
            Terminal::AND_UPPER,
            Terminal::ARGUMENT,
            Terminal::ARGUMENT_NAME,
            Terminal::ATTRIBUTES,
            Terminal::AUTONOMOUS,
            Terminal::CANDIDATE,
            Terminal::CAPTION,
            Terminal::CHOICE_MODE,
            Terminal::COMPLETED,
            Terminal::COMPONENT,
            Terminal::CONFIRMING,
            Terminal::CONTEXT,
            Terminal::CYCLE_REPEAT,
            Terminal::CYCLE_UNTIL,
            Terminal::DATA,
            Terminal::DAYS,
            Terminal::DECISION,
            Terminal::DEFAULT_VALUE,
            Terminal::DERIVATION,
            Terminal::DESCRIPTION,
            Terminal::DIRECTIVES,
            Terminal::END,
            Terminal::ENQUIRY,
            Terminal::EXCLUDING,
            Terminal::FALSE_VALUE,
            Terminal::FOR,
            Terminal::GOAL,
            Terminal::HOURS,
            Terminal::INCLUDE,
            Terminal::INCLUDES,
            Terminal::LTWH,
            Terminal::MANDATORY,
            Terminal::MANDATORY_VALIDATION,
            Terminal::MINUTES,
            Terminal::MULTIPLE,
            Terminal::NETSUPPORT,
            Terminal::NETSUPPORT_UPPER,
            Terminal::NUMBER_OF_CYCLES,
            Terminal::NUMERIC,
            Terminal::ONEOF,
            Terminal::OPTIONAL,
            Terminal::OR,
            Terminal::OR_UPPER,
            Terminal::PARAM_VALUE,
            Terminal::PARAMETERS,
            Terminal::PLAN,
            Terminal::POSTCONDITION,
            Terminal::PRECONDITION,
            Terminal::PRIORITY,
            Terminal::PROCEDURE,
            Terminal::RANGE,
            Terminal::RECOMMENDATION,
            Terminal::RESULT_OF,
            Terminal::SCHEDULE_CONSTRAINT,
            Terminal::SECONDS,
            Terminal::SINGLE,
            Terminal::SOURCE,
            Terminal::SUPPORT_MODE,
            Terminal::SYMBOLIC,
            Terminal::TASK,
            Terminal::TERMINAL,
            Terminal::TERMINATE,
            Terminal::TRIGGER,
            Terminal::TRUE_VALUE,
            Terminal::TYPE,
            Terminal::UNIT,
            Terminal::WAIT_CONDITION,
            Terminal::WEEKS,
            Terminal::DOUBLE_COLON,
            Terminal::SEMICOLON,
            Terminal::DOT,
            Terminal::COMMA,
            Terminal::LEFT_PARENTHESIS,
            Terminal::RIGHT_PARENTHESIS,
            Terminal::LEFT_BRACKET,
            Terminal::RIGHT_BRACKET,
            Terminal::COLON,
            Terminal::EQUALS,
            Terminal::HASH,
            Terminal::PLUS_PLUS,
            Terminal::LESS,
            Terminal::LESS_EQUAL,
            Terminal::EQUAL_LESS,
            Terminal::GREATER,
            Terminal::GREATER_EQUAL,
            Terminal::EQUAL_GREATER,
            Terminal::NOT_EQUAL,
            Terminal::PLUS,
            Terminal::MINUS,
            Terminal::TIMES,
            Terminal::DIVIDE,
            Terminal::OTHER_ATOM,
            Terminal::YES_OR_NO,
            Terminal::DATA_TYPE,
            Terminal::INTEGER,
            Terminal::FLOAT,
            Terminal::STRING,
            Terminal::COUNT,
        ]
    }
}

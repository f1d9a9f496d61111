// The number of each kind of token. Where a token alone makes a record, or joins two, it is the record's kind; `+=`, `-=`,
// `*=` and `/=` are 20 more than the sign that they put to use. No other number says anything of records.
// They stay numbers: `Cursor::next` is promised of a cursor with any number, which may not change, and records keep them.

pub const EOF: u8 = 0;

pub const NAME: u8 = 1;

pub const NUMBER: u8 = 2;

pub const TRUE: u8 = 3;

pub const FALSE: u8 = 4;

pub const STRING: u8 = 5;

pub const PLUS: u8 = 8;

pub const MINUS: u8 = 9;

pub const MULTIPLY: u8 = 10;

pub const DIVIDE: u8 = 11;

pub const POWER: u8 = 12;

pub const EQUAL: u8 = 13;

pub const NOT_EQUAL: u8 = 14;

pub const SUPERIOR: u8 = 15;

pub const INFERIOR: u8 = 16;

pub const SUPERIOR_OR_EQUAL: u8 = 17;

pub const INFERIOR_OR_EQUAL: u8 = 18;

pub const AND: u8 = 19;

pub const OR: u8 = 20;

pub const PLUS_ASSIGN: u8 = 28;

pub const MINUS_ASSIGN: u8 = 29;

pub const MULTIPLY_ASSIGN: u8 = 30;

pub const DIVIDE_ASSIGN: u8 = 31;

pub const PAYS: u8 = 36;

pub const ASSIGN: u8 = 37;

pub const IF: u8 = 38;

pub const FOR: u8 = 39;

pub const OPEN_PAREN: u8 = 40;

pub const CLOSE_PAREN: u8 = 41;

pub const OPEN_CURLY: u8 = 42;

pub const CLOSE_CURLY: u8 = 43;

pub const OPEN_BRACKET: u8 = 44;

pub const CLOSE_BRACKET: u8 = 45;

pub const COMMA: u8 = 46;

pub const DOT: u8 = 47;

pub const SEMICOLON: u8 = 48;

pub const ELSE: u8 = 49;

pub const ON: u8 = 50;

pub const IN: u8 = 51;

pub const THEN: u8 = 52;

pub const END: u8 = 53;

pub const NOT: u8 = 54;

pub const NEWLINE: u8 = 55;

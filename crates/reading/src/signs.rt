// Signs by their codes.
ghost use Rattle.std.specs.Prelude.{◌≡◌};
ghost use Rattle.reading.specs.Signs.{tighter_sign, looser_sign, comparator, sum_sign, product_sign, power_sign, taken_in, raisable, postfix_sign};

use tokens::codes::{
    AND, DIVIDE, DOT, EQUAL, INFERIOR_OR_EQUAL, MINUS, MULTIPLY, OPEN_BRACKET, OR, PLUS, POWER,
};

// Where a power is read alone, no sign of a level above it goes on.

// `and`, where it binds tighter than `or`.
pub fn is_tighter(two: bool, alone: bool, code: u8) -> bool
    ensures { result ≡ tighter_sign two alone code }
{
    !alone && two && code == AND
}

// `or`, and `and` where it is of one level with it.
pub fn is_looser(two: bool, alone: bool, code: u8) -> bool
    ensures { result ≡ looser_sign two alone code }
{
    !alone && ((!two && code == AND) || code == OR)
}

// A comparator.
pub fn is_comparator(alone: bool, code: u8) -> bool
    ensures { result ≡ comparator alone code }
{
    !alone && EQUAL <= code && code <= INFERIOR_OR_EQUAL
}

// `+` and `-`.
pub fn is_sum(alone: bool, code: u8) -> bool
    ensures { result ≡ sum_sign alone code }
{
    !alone && (code == PLUS || code == MINUS)
}

// `*` and `/`.
pub fn is_product(alone: bool, code: u8) -> bool
    ensures { result ≡ product_sign alone code }
{
    !alone && (code == MULTIPLY || code == DIVIDE)
}

// `**`.
pub fn is_power(code: u8) -> bool
    ensures { result ≡ power_sign code }
{
    code == POWER
}

// `**`, where a sign takes it in.
pub fn is_taken_in(two: bool, code: u8) -> bool
    ensures { result ≡ taken_in two code }
{
    two && code == POWER
}

// Whether a `**` may follow what begins with this and is not its own: none does behind a sign, in the second edition.
pub fn is_raised(two: bool, code: u8) -> bool
    ensures { result ≡ raisable two code }
{
    two && code != PLUS && code != MINUS
}

// What a postfix begins with.
pub fn is_postfix(code: u8) -> bool
    ensures { result ≡ postfix_sign code }
{
    code == DOT || code == OPEN_BRACKET
}

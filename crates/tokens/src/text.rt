// Bytes: their classes, where one of them stands first, and where a script ends.
ghost use Rattle.std.specs.Prelude.{◌≡◌, ℕ, Bool, ◌+◌, ◌≤◌, length, drop};
ghost use Rattle.tokens.specs.Text.{digit, capital, letter, name_byte, number_byte, blank, continuation, leading, other, same};
ghost use Rattle.tokens.specs.ScriptEnd.{as_end};
ghost use Rattle.tokens.specs.Lexing.{script_end};

use crate::cursor::Cursor;
use crate::refusals::{Ground, Refusal};

pub fn is_digit(b: u8) -> bool
    ensures { result ≡ digit b }
{
    b.is_ascii_digit()
}

pub fn is_capital(b: u8) -> bool
    ensures { result ≡ capital b }
{
    b.is_ascii_uppercase()
}

pub fn is_letter(b: u8) -> bool
    ensures { result ≡ letter b }
{
    b.is_ascii_alphabetic()
}

// A byte that a name goes on with.
pub fn is_name_byte(b: u8) -> bool
    ensures { result ≡ name_byte b }
{
    is_letter(b) || is_digit(b) || b == b'_'
}

// A byte that a number goes on with.
pub fn is_number_byte(b: u8) -> bool
    ensures { result ≡ number_byte b }
{
    is_digit(b) || b == b'.'
}

pub fn is_blank(b: u8) -> bool
    ensures { result ≡ blank b }
{
    matches!(b, 9 | 11..=13 | 32)
}

// A byte that goes on with a character of UTF-8, so that it begins none.
pub fn is_continuation(b: u8) -> bool
    ensures { result ≡ continuation b }
{
    (0x80..=0xBF).contains(&b)
}

// Where the bytes from a place on that pass a test end.
#[tactic(auto, using(crate::proofs::Leading::end_on, crate::proofs::Leading::end_over))]
pub(crate) fn run_end<F: Fn(u8) -> bool>(s: &[u8], at: usize, goes_on: F) -> usize
    requires { F.IsAlwaysCallable goes_on }
    ensures after { at ≤ result }
    ensures within { at ≤ length s.now → result ≤ length s.now }
    ensures run { (f : ℕ → Bool) → ((b : ℕ) (r : Bool) → F.post goes_on b r → r ≡ f b) → result ≡ at + leading f (drop at s.now) }
{
    for i in at..s.len() {
        if !goes_on(s[i]) {
            return i;
        }
    }
    at.max(s.len())
}

// The first place at or after `at` where the byte `b` stands, or else the end.
pub fn find(s: &[u8], at: usize, b: u8) -> usize
    ensures { result ≡ at + leading (other b) (drop at s.now) }
{
    run_end(s, at, |x| x != b)
}

// Equal bytes.
#[tactic(auto, using(crate::proofs::TextLaws::pointwise_is))]
pub fn equal(a: &[u8], b: &[u8]) -> bool
    ensures { result ≡ same a.now b.now }
{
    a == b
}

// The script is the bytes before the first zero byte. It is not looked for behind the most bytes that a script may have.
#[tactic(auto, using(crate::proofs::TextLaws::script_at, crate::proofs::TextLaws::script_long, crate::proofs::Leading::leading_take, crate::proofs::Shapes::leading_le))]
pub fn script_end(bytes: &[u8]) -> Result<usize, Refusal>
    ensures { as_end result ≡ script_end bytes.now }
{
    let most = bytes.len().min(Cursor::BYTES + 1);
    let end = find(&bytes[..most], 0, 0);
    if Cursor::BYTES < end {
        return Err(Refusal {
            cause: Ground::TooLong,
            byte: 0,
        });
    }
    Ok(end)
}

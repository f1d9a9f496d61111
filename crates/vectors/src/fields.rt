// Fields of a text: where they end, and the numbers that they spell.
ghost use Rattle.std.specs.Prelude.{◌<◌, MatchOption};

use crate::trouble::Trouble;

// What stands before the first byte `b`, and what behind it.
pub fn split_once(s: &[u8], b: u8) -> Option<(&[u8], &[u8])> {
    let i = s.iter().position(|x| *x == b)?;
    Some((&s[..i], &s[i + 1..]))
}

// The first field, and what follows it.
pub fn first_field(s: &[u8]) -> (&[u8], &[u8]) {
    split_once(s, b' ').unwrap_or((s, &[]))
}

// What a digit counts, in decimal or hex. The library's `to_digit` takes capitals too, which the format does not have.
pub fn digit(b: u8) -> Option<u8>
    ensures { MatchOption result (Unit {0}) (λ d. d < 16) }
{
    match b {
        b'0'..=b'9' => Some(b - b'0'),
        b'a'..=b'f' => Some(b - b'a' + 10),
        _ => None,
    }
}

// A number with a digit of this radix behind it, if that is one and the number stays one of a word.
fn grown(n: u32, b: u8, radix: u32) -> Option<u32> {
    let d = digit(b)? as u32;
    if d < radix {
        n.checked_mul(radix)?.checked_add(d)
    } else {
        None
    }
}

// The number of a word that a field spells, in digits of this radix, at most 16. It is told digit by digit, since the library's
// `from_str_radix` reads a sign and capitals too, and wants text.
pub fn number(field: &[u8], radix: u32) -> Result<u32, Trouble> {
    if field.is_empty() {
        return Err(Trouble::Malformed);
    }
    field
        .iter()
        .try_fold(0, |n, b| grown(n, *b, radix))
        .ok_or(Trouble::Malformed)
}

// The numbers that `N` fields spell, which may have a space behind them.
pub fn numbers<const N: usize>(s: &[u8]) -> Result<[u32; N], Trouble> {
    let s = s.strip_suffix(b" ").unwrap_or(s);
    let mut fields = s.split(|b| *b == b' ');
    let mut all = [0; N];
    for n in &mut all {
        *n = number(fields.next().ok_or(Trouble::Malformed)?, 10)?;
    }
    match fields.next() {
        None => Ok(all),
        Some(_) => Err(Trouble::Malformed),
    }
}

// A date as ISO 8601 writes it.
ghost use Rattle.std.specs.Prelude.{◌≡◌, Option, Some, None, ◌+◌, ◌<◌, ltb, length, if◌then◌else◌};
ghost use Rattle.tokens.specs.Dates.{pair, date, unless_0};

use crate::text::is_digit;
use calendar::days::count_of;

// The number that two digits write, where they are both digits.
fn pair_at(s: &[u8], i: usize) -> Option<u32>
    requires { i + 1 < length s.now }
    ensures { result ≡ (if ltb (pair s.now i) 100 then Some (pair s.now i) else None) }
{
    let a = s[i];
    let b = s[i + 1];
    if is_digit(a) && is_digit(b) {
        return Some(u32::from(a - b'0') * 10 + u32::from(b - b'0'));
    }
    None
}

// The count of the day that a text writes.
pub fn date_of(s: &[u8]) -> Option<u32>
    ensures { result ≡ unless_0 (date s.now) }
{
    if s.len() != 10 || s[4] != b'-' || s[7] != b'-' {
        return None;
    }
    let year = pair_at(s, 0)? * 100 + pair_at(s, 2)?;
    let day = count_of(year, pair_at(s, 5)?, pair_at(s, 8)?);
    if day == 0 { None } else { Some(day) }
}

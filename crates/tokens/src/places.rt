// Where a byte stands, as people count.
ghost use Rattle.std.specs.Prelude.{◌≡◌};
ghost use Rattle.tokens.specs.Places.{line, column, place_of};

use crate::text::is_continuation;

#[derive(Clone, Copy)]
pub struct Place {
    pub line: usize,
    pub column: usize,
}

// Counting alone, so that the compiler takes many bytes at once, which it does not where a filter is counted.
fn line_of(s: &[u8], at: usize) -> usize
    ensures { result ≡ line s.now at }
{
    let mut line = 1;
    for &b in &s[..at.min(s.len())] {
        if b == b'\n' {
            line += 1;
        }
    }
    line
}

// From the place back to the line feed before it, so that the lines before are not walked.
fn column_of(s: &[u8], at: usize) -> usize
    ensures { result ≡ column s.now at }
{
    let before = s[..at.min(s.len())].iter().rev();
    let line = before.take_while(|&&b| b != b'\n');
    1 + line.filter(|&&b| !is_continuation(b)).count()
}

// The line and the column of the byte at `at`, each counted from 1.
pub fn place_of(s: &[u8], at: usize) -> Place
    ensures { result ≡ place_of s.now at }
{
    Place {
        line: line_of(s, at),
        column: column_of(s, at),
    }
}

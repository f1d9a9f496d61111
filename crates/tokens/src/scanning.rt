// The token step, and the scan of a whole text.
ghost use Rattle.std.specs.Prelude.{◌≡◌};
ghost use Rattle.tokens.specs.Found.{as_found};
ghost use Rattle.tokens.specs.Scanned.{as_scanned};
ghost use Rattle.tokens.specs.Lexing.{step_at, judged_by, scan_of};

use crate::codes::{EOF, NEWLINE, NUMBER};
use crate::cursor::Cursor;
use crate::kinds::{Kind, Literal, kind_of};
use crate::lexing::lex;
use crate::numbers::value_of;
use crate::refusals::{Ground, Refusal};

// A token with its place: its first byte, and the byte past its last.
#[derive(Clone, Copy)]
pub struct Token {
    pub start: usize,
    pub end: usize,
    pub kind: Kind,
}

// A whole text: how many tokens, and the last one's end.
#[derive(Clone, Copy)]
pub struct Summary {
    pub tokens: usize,
    pub last: usize,
}

// The token step: the first token at or behind a place, or the ground and place on which the text is refused there.
#[tactic(auto, using(crate::proofs::ScanLaws::step_number, crate::proofs::ScanLaws::step_other, crate::proofs::ScanLaws::number_within))]
pub fn step(s: &[u8], at: usize) -> Result<Token, Refusal>
    ensures { as_found result ≡ step_at s.now at }
{
    let m = lex(s, at)?;
    let start = m.start;
    let end = m.end;
    let kind = if m.code == NUMBER {
        Kind::Value(Literal::Number(value_of(&s[start..end])))
    } else {
        kind_of(m.code)
    };
    Ok(Token { start, end, kind })
}

fn judged(tokens: usize, last: usize, end: usize) -> Result<Summary, Refusal>
    ensures { as_scanned result ≡ judged_by tokens last end }
{
    if Cursor::TOKENS < tokens {
        return Err(Refusal {
            cause: Ground::ManyTokens,
            byte: end,
        });
    }
    Ok(Summary { tokens, last })
}

// Scans a whole text: the first of 3 to 6 from the left, then 7 where there are too many tokens.
#[tactic(auto, unfolding(crate::specs::Lexing::scan_of), using(crate::proofs::ScanLaws::summary_end, crate::proofs::ScanLaws::summary_line, crate::proofs::ScanLaws::mark_progress))]
pub fn scan(s: &[u8]) -> Result<Summary, Refusal>
    ensures { as_scanned result ≡ scan_of s.now }
{
    let mut at: usize = 0;
    let mut count: usize = 0;
    let mut last: usize = 0;
    // Each token says where the next is looked for, so no range gives the places.
    loop {
        let m = lex(s, at)?;
        if m.code == EOF {
            return judged(count, last, s.len());
        }
        at = m.end;
        if m.code != NEWLINE {
            count += 1;
            last = m.end;
        }
    }
}

// What stands at a place of a text.
ghost use Rattle.std.specs.Prelude.{◌≡◌, ◌+◌, ◌<◌, length, drop};
ghost use Rattle.tokens.specs.Text.{leading, name_byte, number_byte};
ghost use Rattle.tokens.specs.Tokens.{sign};
ghost use Rattle.tokens.specs.Lexing.{lexeme_at, gap_width, byte_at, comment, word_at, number_at, string_at, mark_of, mark_at, refused_mark, Tells};

use crate::codes::{EOF, NEWLINE, NUMBER, STRING};
use crate::numbers::number_fault;
use crate::refusals::{Ground, Refusal};
use crate::text::{find, is_blank, is_digit, is_letter, is_name_byte, is_number_byte, run_end};
use crate::words::{keyword, lone_sign, pair_key, pair_sign};

// A token as readers keep it: its place and its kind's number.
#[derive(Clone, Copy)]
pub struct Mark {
    pub start: usize,
    pub end: usize,
    pub code: u8,
}

// A refusal as readers keep it: no bytes, and 100 and the ground's number for a kind's. It is the number that `Cursor::start`
// and `next` promise at a refused place (`Lexing.cursor_at`): what may not change.
impl From<Refusal> for Mark {
    ghost from_gives = { λ e m. m ≡ refused_mark e };

    fn from(e: Refusal) -> Mark {
        Mark {
            start: e.byte,
            end: e.byte,
            code: 100 + e.cause.number() as u8,
        }
    }
}

// The byte at a place, and 0 behind the end, which makes no pair and no comment.
fn byte_at(s: &[u8], at: usize) -> u8
    ensures { result ≡ byte_at s.now at }
{
    s.get(at).copied().unwrap_or(0)
}

// `#` and `//` begin a comment.
fn is_comment(b: u8, next: u8) -> bool
    ensures { result ≡ comment b next }
{
    b == b'#' || b == b'/' && next == b'/'
}

// Where the blank or the comment at a place ends; the place itself where there is none.
#[tactic(auto, using(crate::proofs::LexLaws::gap_at_blank, crate::proofs::LexLaws::gap_at_comment, crate::proofs::LexLaws::gap_at_none))]
fn gap_end(s: &[u8], at: usize) -> usize
    requires { at < length s.now }
    ensures { result ≡ at + gap_width (lexeme_at s.now at) }
{
    let b = s[at];
    if is_blank(b) {
        return at + 1;
    }
    if is_comment(b, byte_at(s, at + 1)) {
        return find(s, at + 1, b'\n');
    }
    at
}

// The sign at a place: the longest wins.
fn sign_at(s: &[u8], at: usize) -> Result<Mark, Refusal>
    requires { at < length s.now }
    ensures { Tells (mark_of at (sign (drop at s.now))) result }
{
    let b = s[at];
    if let Some(code) = pair_sign(pair_key(b, byte_at(s, at + 1))) {
        return Ok(Mark {
            start: at,
            end: at + 2,
            code,
        });
    }
    if let Some(code) = lone_sign(b) {
        return Ok(Mark {
            start: at,
            end: at + 1,
            code,
        });
    }
    Err(Refusal {
        cause: Ground::Character,
        byte: at,
    })
}

// The name or the keyword at a place where a letter stands.
fn word_at(s: &[u8], at: usize) -> Mark
    requires { at < length s.now }
    ensures { (result ≡ mark_of at (word_at s.now at)) × (result.code < 100) }
{
    let end = run_end(s, at + 1, is_name_byte);
    let code = keyword(&s[at..end]);
    Mark {
        start: at,
        end,
        code,
    }
}

// The number at a place where a digit stands.
fn number_at(s: &[u8], at: usize) -> Result<Mark, Refusal>
    requires { at < length s.now }
    ensures { Tells (mark_of at (number_at s.now at)) result }
{
    let end = run_end(s, at + 1, is_number_byte);
    number_fault(&s[at..end]).map_err(|cause| Refusal { cause, byte: at })?;
    Ok(Mark {
        start: at,
        end,
        code: NUMBER,
    })
}

// The string at a place where a quote stands.
#[tactic(auto, using(crate::proofs::LexLaws::string_closed, crate::proofs::LexLaws::string_open))]
fn string_at(s: &[u8], at: usize) -> Result<Mark, Refusal>
    requires { at < length s.now }
    ensures { Tells (mark_of at (string_at s.now at)) result }
{
    let quote = find(s, at + 1, b'"');
    if quote < s.len() {
        return Ok(Mark {
            start: at,
            end: quote + 1,
            code: STRING,
        });
    }
    Err(Refusal {
        cause: Ground::OpenString,
        byte: at,
    })
}

// The token at a place where no blank and no comment stands.
#[tactic(auto, using(crate::proofs::LexLaws::word_here, crate::proofs::LexLaws::number_here, crate::proofs::LexLaws::string_here, crate::proofs::LexLaws::line_here, crate::proofs::LexLaws::sign_here, crate::proofs::ScanLaws::tells))]
fn token_at(s: &[u8], at: usize) -> Result<Mark, Refusal>
    requires { (at < length s.now) × (gap_width (lexeme_at s.now at) ≡ 0) }
    ensures { Tells (mark_of at (lexeme_at s.now at)) result }
{
    let b = s[at];
    if is_letter(b) {
        return Ok(word_at(s, at));
    }
    if is_digit(b) {
        return number_at(s, at);
    }
    if b == b'"' {
        return string_at(s, at);
    }
    if b == b'\n' {
        return Ok(Mark {
            start: at,
            end: at + 1,
            code: NEWLINE,
        });
    }
    sign_at(s, at)
}

// The first token at or behind a place, Newlines among them, or a refusal there.
#[tactic(auto, using(crate::proofs::MarkLaws::mark_over, crate::proofs::MarkLaws::mark_on, crate::proofs::MarkLaws::mark_here, crate::proofs::ScanLaws::tells))]
pub fn lex(s: &[u8], at: usize) -> Result<Mark, Refusal>
    ensures { Tells (mark_at s.now at) result }
{
    // A gap may have any length, so no range gives the places.
    let mut i = at;
    while i < s.len() {
        let end = gap_end(s, i);
        if end == i {
            return token_at(s, i);
        }
        i = end;
    }
    Ok(Mark {
        start: i,
        end: i,
        code: EOF,
    })
}

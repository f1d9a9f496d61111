// The cursor: a place in a script and the token that stands there.
ghost use Rattle.std.specs.Prelude.{◌≡◌, take};
ghost use Rattle.tokens.specs.Limits.{most_bytes};
ghost use Rattle.tokens.specs.Lexing.{mark_at, cursor_at, advanced};

use crate::codes::{EOF, NEWLINE};
use crate::lexing::{Mark, lex};

// The token that stands at the cursor, Newlines aside: its first byte, the byte past its last, its code, and whether a
// Newline stands before it. With it how many tokens were taken before, and the end of the last of them.
#[derive(Clone, Copy)]
pub struct Cursor {
    pub start: u16,
    pub end: u16,
    pub taken: u16,
    pub last: u16,
    pub code: u8,
    pub broken: bool,
}

// A text no longer than a script.
#[tactic(auto, using(std::proofs::lemmas::List::take_min))]
fn script_of(s: &[u8]) -> &[u8]
    ensures { result.now ≡ take most_bytes s.now }
{
    &s[..Cursor::BYTES.min(s.len())]
}

// The first token at or behind a place, or the refusal there.
fn mark_at(text: &[u8], at: usize) -> Mark
    ensures { result ≡ mark_at text.now at }
{
    lex(text, at).unwrap_or_else(Mark::from)
}

impl Cursor {
    pub const BYTES: usize = 16384;

    pub const TOKENS: usize = 4096;

    pub const DEPTH: u32 = 32;

    // The first token at or behind a place.
    fn at_place(s: &[u8], at: u16, taken: u16, last: u16) -> Self
        ensures { result ≡ cursor_at (take most_bytes s.now) at taken last }
    {
        let text = script_of(s);
        let mut i = at as usize;
        let mut broken = false;
        // Each Newline says where the next token is looked for, so no range gives the places.
        loop {
            let m = mark_at(text, i);
            if m.code != NEWLINE {
                return Cursor {
                    start: m.start as u16,
                    end: m.end as u16,
                    taken,
                    last,
                    code: m.code,
                    broken,
                };
            }
            broken = true;
            i = m.end;
        }
    }

    // The first token of a script.
    pub fn start(s: &[u8]) -> Self
        ensures { result ≡ cursor_at (take most_bytes s.now) 0 0 0 }
    {
        Cursor::at_place(s, 0, 0, 0)
    }

    // The token is taken, and the next one stands at the cursor. The end stays.
    #[tactic(auto, unfolding(crate::specs::Lexing::advanced))]
    pub fn next(self, s: &[u8]) -> Self
        ensures { result ≡ advanced (take most_bytes s.now) self }
    {
        if self.code == EOF {
            return self;
        }
        Cursor::at_place(s, self.end, self.taken.saturating_add(1), self.end)
    }
}

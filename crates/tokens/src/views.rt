// A view of a lent script: a struct that holds the slice, with few and thin calls. A caller with a plain slice asks
// `token_after`.
ghost use Rattle.std.specs.Prelude.{◌≡◌};
ghost use Rattle.tokens.specs.Found.{as_found};
ghost use Rattle.tokens.specs.Lexing.{step_at};
ghost use Rattle.tokens.specs.Views.{passed, place_after, view_at, moved, token_after};

use crate::refusals::Refusal;
use crate::scanning::{Token, step};

// The script as it was lent, and a place in it. As to the token step, the text's length alone ends it.
#[derive(Clone, Copy)]
pub struct View<'a> {
    pub script: &'a [u8],
    pub at: usize,
}

// The place behind the first token at or behind a place; a refused place is not passed.
fn behind(s: &[u8], at: usize) -> usize
    ensures { result ≡ passed (step_at s.now at) }
{
    match step(s, at) {
        Ok(t) => t.end,
        Err(e) => e.byte,
    }
}

// The place behind so many tokens from a place on.
#[tactic(auto, using(crate::proofs::ViewLaws::after_none, crate::proofs::ViewLaws::after_same))]
fn place_after(s: &[u8], at: usize, tokens: usize) -> usize
    ensures { result ≡ place_after s.now at tokens }
{
    let mut i = at;
    for _ in 0..tokens {
        let next = behind(s, i);
        // A place that is not passed once is never passed.
        if next == i {
            return i;
        }
        i = next;
    }
    i
}

impl<'a> View<'a> {
    // The view of a script from its start.
    pub fn over(script: &'a [u8]) -> View<'a>
        ensures { result ≡ view_at script.entry 0 }
    {
        View { script, at: 0 }
    }

    // The token there.
    pub fn token(self) -> Result<Token, Refusal>
        ensures { as_found result ≡ step_at self.entry.script.now self.entry.at }
    {
        step(self.script, self.at)
    }

    // The view of the same script behind so many tokens.
    pub fn moved_on(self, tokens: usize) -> View<'a>
        ensures { result ≡ moved self.entry tokens }
    {
        View {
            script: self.script,
            at: place_after(self.script, self.at, tokens),
        }
    }
}

// The token of a script behind so many others, Newlines among them. The end and a refused place are not passed.
pub fn token_after(script: &[u8], skipped: usize) -> Result<Token, Refusal>
    ensures { as_found result ≡ token_after script.now skipped }
{
    View::over(script).moved_on(skipped).token()
}

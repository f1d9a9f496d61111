// Whether a call answered and left what is stored.
ghost use Rattle.std.specs.Prelude.{◌≡◌};
ghost use Rattle.vectors.specs.Comparing.{ground_stored, counts_stored, answer_stored, common, compared};

use crate::case::Slices;
use crate::memory::Memory;
use crate::report::{say_left, say_word};
use crate::trouble::Trouble;
use reading::reading::Answer;
use std::io::Stdout;

// The ten numbers of an answer, as a line stores them.
pub type Numbers = [u32; 10];

#[tactic(auto, unfolding(crate::specs::Comparing::ground_stored))]
fn has_ground(stored: &Numbers, a: Answer) -> bool
    ensures { result ≡ ground_stored stored.now a }
{
    a.number == stored[0]
        && a.byte == stored[1] as usize
        && a.line == stored[2] as usize
        && a.column == stored[3] as usize
}

#[tactic(auto, unfolding(crate::specs::Comparing::counts_stored))]
fn has_counts(stored: &Numbers, a: Answer) -> bool
    ensures { result ≡ counts_stored stored.now a }
{
    a.bytes == stored[4] as usize
        && a.statements == stored[5] as usize
        && a.records == stored[6] as usize
        && a.tokens == stored[7] as usize
        && a.latest == stored[8] as usize
}

// Whether an answer is the stored one, in all its ten numbers. Each by itself, as `answer_stored` says it: `Answer` is of the
// crate reading, which derives no equality, and two arrays of ten would only name all the numbers again.
pub fn agrees(stored: &Numbers, a: Answer) -> bool
    ensures { result ≡ answer_stored stored.now a }
{
    has_ground(stored, a) && has_counts(stored, a) && a.edition == stored[9]
}

// How many words at the start of two slices are equal: the place of the first that differ. It is a loop over their places,
// since what `zip`, `take_while` and `count` make of them does not prove.
#[tactic(auto, using(crate::proofs::ComparingLaws::common_on, crate::proofs::ComparingLaws::common_stop, crate::proofs::ComparingLaws::common_over))]
fn common(a: &[u32], b: &[u32]) -> usize
    ensures { result ≡ common a.now b.now }
{
    let most = a.len().min(b.len());
    for i in 0..most {
        if a[i] != b[i] {
            return i;
        }
    }
    most
}

// Compares memory with what a line says of it, whole. Where only what it holds differs, that is told.
fn compare<T: Copy + PartialEq, F: FnOnce(&[T], &[T])>(
    stored: &Memory<T>,
    left: &Memory<T>,
    tell: F,
) -> Result<(), Trouble>
    requires { F.IsAlwaysCallable tell }
    ensures { result ≡ compared T.eq stored.now left.now }
{
    if stored.size() != left.size() {
        return Err(Trouble::Differs);
    }
    if stored.lent() == left.lent() {
        return Ok(());
    }
    tell(stored.lent(), left.lent());
    Err(Trouble::Differs)
}

pub fn compare_script(
    out: Stdout,
    file: &[u8],
    field: &[u8],
    left: &Memory<u8>,
) -> Result<(), Trouble> {
    let mut stored = Memory::new(0);
    stored.load_bytes(file, field)?;
    compare(&stored, left, |_, left| say_left(out, left))
}

pub fn compare_words(out: Stdout, field: &[u8], left: &Memory<u32>) -> Result<(), Trouble> {
    let mut stored = Memory::new(0);
    stored.load_words(field)?;
    compare(&stored, left, |stored, left| {
        let at = common(stored, left);
        if let Some(word) = left.get(at) {
            say_word(out, at, *word);
        }
    })
}

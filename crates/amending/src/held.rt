// What is used of lent memory.
ghost use Rattle.std.specs.Prelude.{◌≡◌};
ghost use Rattle.amending.specs.States.{held_of};

use reading::reading::Answer;

// How much of the lent memory is used: bytes of the script, entries of the directory, records, and the tokens that they had;
// the script's latest date, and its edition. They stand beside the slices, as C lends both: memory is fixed and may be longer.
#[derive(Clone, Copy)]
pub struct Held {
    pub bytes: usize,
    pub statements: usize,
    pub records: usize,
    pub tokens: usize,
    pub latest: usize,
    pub edition: u32,
}

// What is used after a call that gave this answer.
impl From<Answer> for Held {
    ghost from_gives = { λ a h. h ≡ held_of a };

    fn from(a: Answer) -> Held {
        Held {
            bytes: a.bytes,
            statements: a.statements,
            records: a.records,
            tokens: a.tokens,
            latest: a.latest,
            edition: a.edition,
        }
    }
}

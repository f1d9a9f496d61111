// How much there is room for.
ghost use Rattle.std.specs.Prelude.{◌≤◌};
ghost use Rattle.tokens.specs.Limits.{most_bytes, most_tokens};
ghost use Rattle.grammar.specs.Sizes.{most_records, most_statements};

use crate::held::Held;

// The most bytes, tokens, records and statements that there is room for: capacity or lent room.
#[derive(Clone, Copy)]
pub struct Rooms {
    pub bytes: usize,
    pub tokens: usize,
    pub records: usize,
    pub statements: usize,
    ghost few_bytes: { bytes ≤ most_bytes },
    ghost few_tokens: { tokens ≤ most_tokens },
    ghost few_records: { records ≤ most_records },
    ghost few_statements: { statements ≤ most_statements },
}

impl Rooms {
    ghost use Rattle.std.specs.Prelude.{◌≡◌};
    ghost use Rattle.amending.specs.Memory.{within, as_rooms};

    // Whether what is used is within capacity and the lent slices.
    #[tactic(auto, unfolding(crate::specs::Memory::within))]
    pub fn hold(&self, held: &Held) -> bool
        ensures { result ≡ within (as_rooms self.now) held.now }
    {
        held.bytes <= self.bytes
            && held.tokens <= self.tokens
            && held.records <= self.records
            && held.statements <= self.statements
    }
}

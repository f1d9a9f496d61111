// The editions of the language, and their numbers.
ghost use Rattle.std.specs.Prelude.{◌≡◌};
ghost use Rattle.grammar.specs.Script.{number_of};
ghost use Rattle.reading.specs.Editions.{edition_of, second_of, Named};

use tokens::refusals::Ground;

// The edition that a script is written in, with the number that a caller names it by.
#[derive(Clone, Copy)]
pub enum Edition {
    One = 1,
    Two = 2,
}

impl TryFrom<u32> for Edition {
    type Error = Ground;

    ghost try_from_gives = { Named };

    fn try_from(number: u32) -> Result<Self, Ground> {
        match number {
            1 => Ok(Edition::One),
            2 => Ok(Edition::Two),
            _ => Err(Ground::Edition),
        }
    }
}

impl Edition {
    pub fn number(self) -> u32
        ensures { result ≡ number_of (edition_of self) }
    {
        self as u32
    }

    pub fn is_second(self) -> bool
        ensures { result ≡ second_of self }
    {
        matches!(self, Edition::Two)
    }
}

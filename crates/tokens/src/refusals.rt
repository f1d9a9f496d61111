// Refusals: on what ground, and at which byte.
ghost use Rattle.std.specs.Prelude.{◌≡◌};
ghost use Rattle.tokens.specs.Refusals.{number_of};

// The grounds of the paper, each with its number.
#[derive(Clone, Copy)]
pub enum Ground {
    TooLong = 1,
    List = 2,
    Character = 3,
    OpenString = 4,
    Number = 5,
    LongNumber = 6,
    ManyTokens = 7,
    Token = 8,
    Reserved = 9,
    Arguments = 10,
    Date = 11,
    Currency = 12,
    DayCounter = 13,
    NoString = 14,
    Depth = 15,
    Room = 16,
    Statement = 17,
    Ending = 18,
    ZeroByte = 19,
    Directory = 20,
    Edition = 26,
}

impl Ground {
    pub fn number(self) -> u32
        ensures { result ≡ number_of self }
    {
        self as u32
    }
}

// What is refused: the ground, and the byte where it lies.
#[derive(Clone, Copy)]
pub struct Refusal {
    pub cause: Ground,
    pub byte: usize,
}

// Why a line is told of.
use std::fmt;

#[derive(Clone, Copy, PartialEq, Eq)]
pub enum Trouble {
    // The call gave or left something else.
    Differs,
    NoRoom,
    Malformed,
}

impl fmt::Display for Trouble {
    fn fmt<W: fmt::Write>(&self, f: &mut fmt::Formatter<W>) -> fmt::Result {
        f.write_str(match self {
            Trouble::Differs => "expected",
            Trouble::NoRoom => "no room",
            Trouble::Malformed => "not in the format",
        })
    }
}

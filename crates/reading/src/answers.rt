// What readers answer. Places are bytes from the first byte of the statement.
ghost use Rattle.std.specs.Prelude.{◌≡◌, ◌+◌, ◌≤◌};
ghost use Rattle.reading.specs.Faults.{fault_at, in_script};

use crate::records::Node;
use tokens::cursor::Cursor;
use tokens::refusals::{Ground, Refusal};

// A refusal inside a statement. Its byte has 32 bits though 16 would do: with 16 a reading took a quarter longer and parentheses
// a quarter more stack, since in a Result the halves of a refusal's word then lie across those of a cursor's.
#[derive(Clone, Copy)]
pub struct Fault {
    pub cause: Ground,
    pub byte: u32,
}

impl Fault {
    // A refusal at the token that stands at c.
    pub fn at(c: Cursor, cause: Ground) -> Self
        ensures { result ≡ fault_at c cause }
    {
        Fault {
            cause,
            byte: c.start as u32,
        }
    }

    // The same refusal, where the statement begins at this byte of the script.
    pub fn in_script(self, base: usize) -> Refusal
        requires { base ≤ 16384 }
        ensures { result ≡ in_script self base }
    {
        Refusal {
            cause: self.cause,
            byte: base + self.byte as usize,
        }
    }
}

// A tree was read: the cursor behind it, how many records there are then, and where the content of a String node stands.
#[derive(Clone, Copy)]
pub struct Read {
    pub at: Cursor,
    pub records: u32,
    pub string: Option<u16>,
}

// A date or a currency was read, as its number. 0 is none, not a `None`: so records keep it for who reads them in C.
#[derive(Clone, Copy)]
pub struct Number {
    pub at: Cursor,
    pub value: u32,
}

// A node without parts was read, and is not written yet.
#[derive(Clone, Copy)]
pub struct Leaf {
    pub at: Cursor,
    pub node: Node,
}

// Where the contents of the first three parts stand, where they are String nodes.
#[derive(Clone, Copy)]
pub struct Texts {
    pub first: Option<u16>,
    pub second: Option<u16>,
    pub third: Option<u16>,
}

// Parts were read: the cursor behind them, how many records there are then, how many parts, and where their strings stand.
#[derive(Clone, Copy)]
pub struct Items {
    pub at: Cursor,
    pub records: u32,
    pub count: u32,
    pub texts: Texts,
}

// The statements of a block were read: the cursor behind it, how many records there are then, and how many statements.
#[derive(Clone, Copy)]
pub struct Block {
    pub at: Cursor,
    pub records: u32,
    pub count: u32,
}

// All statements were read: how many, how many records, and their latest date.
#[derive(Clone, Copy)]
pub struct All {
    pub statements: u32,
    pub records: u32,
    pub latest: u32,
}

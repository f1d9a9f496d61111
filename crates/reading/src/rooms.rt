// How many bytes, records and statements lent memory has room for, and how many tokens there may be.
ghost use Rattle.std.specs.Prelude.{◌≡◌, min};
ghost use Rattle.tokens.specs.Limits.{most_bytes};
ghost use Rattle.grammar.specs.Sizes.{record_room, statement_room};

use crate::records::{Entry, Node};
use tokens::cursor::Cursor;

// The words of a record, and of a directory entry.
pub const RECORD_WIDTH: usize = Node::WIDTH;

pub const ENTRY_WIDTH: usize = Entry::WIDTH;

// The capacities: records, statements, and tokens, Newlines aside.
pub const MOST_RECORDS: usize = Node::MOST;

pub const MOST_STATEMENTS: usize = Entry::MOST;

pub const MOST_TOKENS: usize = Cursor::TOKENS;

pub fn byte_room(bytes: usize) -> usize
    ensures { result ≡ min most_bytes bytes }
{
    bytes.min(Cursor::BYTES)
}

// One line each: a trait of `Node` and `Entry` for the two would be longer than they are.
pub fn record_room(words: usize) -> usize
    ensures { result ≡ record_room words }
{
    (words / Node::WIDTH).min(Node::MOST)
}

pub fn statement_room(words: usize) -> usize
    ensures { result ≡ statement_room words }
{
    (words / Entry::WIDTH).min(Entry::MOST)
}

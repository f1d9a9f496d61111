// The memory that a caller lends.
ghost use Rattle.std.specs.Prelude.{◌≡◌};
ghost use Rattle.amending.specs.Memory.{rooms_in, as_memory, as_rooms};

use crate::rooms::Rooms;
use reading::rooms::{MOST_TOKENS, byte_room, record_room, statement_room};

// A script, its records and its directory.
#[derive(Drop)]
pub struct Memory<'a> {
    pub script: &'a mut [u8],
    pub records: &'a mut [u32],
    pub directory: &'a mut [u32],
}

impl<'a> Memory<'a> {
    pub(crate) fn rooms(&self) -> Rooms
        ensures { as_rooms result ≡ rooms_in (as_memory self.now) }
    {
        Rooms {
            bytes: byte_room(self.script.len()),
            tokens: MOST_TOKENS,
            records: record_room(self.records.len()),
            statements: statement_room(self.directory.len()),
        }
    }
}

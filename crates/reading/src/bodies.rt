// What stands round the blocks of an if and a for: nothing here reads an expression or a statement.
ghost use Rattle.std.specs.Prelude.{◌≡◌, []};
ghost use Rattle.reading.specs.Meets.{words_in, toks_at, Holds};
ghost use Rattle.reading.specs.Bodies.{loop_head, MeetsHead};

use crate::answers::Fault;
use crate::atoms::take;
use crate::records::{Kind, Node};
use tokens::codes::{IN, NAME};
use tokens::cursor::Cursor;
use tokens::names::place_in;
use tokens::refusals::Ground;

// The record of an if, whose word stands at the place.
pub fn branch(place: u16, nodes: u32, parts: u32, first_else: u32) -> Node
    ensures { result ≡ record { kind = 38; nodes = nodes; parts = parts; f1 = first_else; f2 = 0; f3 = 0; f4 = 0; place = place } }
{
    Node {
        kind: Kind::If as u32,
        nodes,
        parts,
        f1: first_else,
        f2: 0,
        f3: 0,
        f4: 0,
        place: place as u32,
    }
}

// The variable of a loop, which may not be reserved, and `in`: the cursor behind them.
pub fn loop_head(s: &[u8], reserved: &[u8], c: Cursor) -> Result<Cursor, Fault>
    requires { Holds s.now c }
    ensures { MeetsHead s.now (loop_head (words_in reserved.now [] []) (toks_at s.now c.start)) c result }
{
    let d = take(s, c, NAME)?;
    let a = c.start as usize;
    let e = c.end as usize;
    if place_in(reserved, &s[a..e]).is_some() {
        return Err(Fault::at(c, Ground::Reserved));
    }
    take(s, d, IN)
}

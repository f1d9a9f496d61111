// Tokens one at a time, and the primaries that are one token.
ghost use Rattle.std.specs.Prelude.{◌≡◌, [], ◌-◌, ◌≤◌};
ghost use Rattle.grammar.specs.Grammar.{named};
ghost use Rattle.reading.specs.Meets.{words_in, language_in, toks_at, token_at, Holds, Ready, Follows, Takes, Lone, Meets};
ghost use Rattle.reading.specs.Atoms.{atom, literal};
ghost use Rattle.reading.specs.Rows.{kind_number};

use crate::answers::{Fault, Read};
use crate::records::{Kind, Node, leaf, plain, put};
use crate::signs::is_taken_in;
use tokens::codes::{FALSE, NUMBER, STRING, TRUE};
use tokens::cursor::Cursor;
use tokens::names::place_in;
use tokens::numbers::bits_of;
use tokens::refusals::Ground;

// That a cursor holds a token of the text (`Holds`), with room for what can be read (`Ready`), each reader asks for itself: these
// are facts of the text, the cursor and the count, of which every step changes two, so a type for all three would be made anew at
// each step, and is no plainer.

// The cursor behind the token that stands at c; the end stays.
pub fn next(s: &[u8], c: Cursor) -> Cursor
    requires { Holds s.now c }
    ensures { Follows s.now c result }
{
    c.next(s)
}

// The token of this code and no other.
pub fn take(s: &[u8], c: Cursor, code: u8) -> Result<Cursor, Fault>
    requires { Holds s.now c × (code ≡ 0 → ⊥) }
    ensures { Takes s.now code c result }
{
    if c.code != code {
        return Err(Fault::at(c, Ground::Token));
    }
    Ok(next(s, c))
}

// The cursor behind the number at c that is all that a minus before it takes in: in the second edition no `**` follows.
pub fn lone_at(s: &[u8], two: bool, c: Cursor) -> Option<Cursor>
    requires { Holds s.now c }
    ensures { Lone s.now (language_in two [] [] []) c result }
{
    if c.code != NUMBER {
        return None;
    }
    let d = next(s, c);
    if is_taken_in(two, d.code) {
        return None;
    }
    Some(d)
}

// The number at c, negated where a minus stood before it; its text begins at the place, and d stands behind it.
pub fn constant_at(
    s: &[u8],
    c: Cursor,
    d: Cursor,
    minus: bool,
    place: u16,
    out: &mut [u32],
    n: u32,
) -> Read
    requires { Ready s.now c n × Follows s.now c d × (c.code ≡ 2) }
    ensures { Meets s.now (literal place minus (toks_at s.now c.start)) n out.old (Ok result) out.new }
{
    let a = c.start as usize;
    let e = c.end as usize;
    let bits = bits_of(&s[a..e], minus);
    let start = c.start as u32;
    let size = (c.end - c.start) as u32;
    let node = leaf(Kind::Constant, bits.high, bits.low, start, size, place);
    put(out, n, node);
    Read {
        at: d,
        records: n + 1,
        string: None,
    }
}

// The string at c; d stands behind it.
fn string_at(s: &[u8], c: Cursor, d: Cursor, out: &mut [u32], n: u32) -> Read
    requires { Ready s.now c n × Follows s.now c d × (c.code ≡ 5) }
    ensures { Meets s.now (atom (toks_at s.now c.start)) n out.old (Ok result) out.new }
{
    let content = c.start + 1;
    let size = (c.end - c.start - 2) as u32;
    put(
        out,
        n,
        leaf(Kind::String, content as u32, size, 0, 0, c.start),
    );
    Read {
        at: d,
        records: n + 1,
        string: Some(content),
    }
}

// A primary that is one token: a number, a truth value or a string; d stands behind it.
pub fn atom_at(s: &[u8], c: Cursor, d: Cursor, out: &mut [u32], n: u32) -> Result<Read, Fault>
    requires { Ready s.now c n × Follows s.now c d }
    ensures { Meets s.now (atom (toks_at s.now c.start)) n out.old result out.new }
{
    let kind = match c.code {
        NUMBER => return Ok(constant_at(s, c, d, false, c.start, out, n)),
        STRING => return Ok(string_at(s, c, d, out, n)),
        TRUE => Kind::True,
        FALSE => Kind::False,
        _ => return Err(Fault::at(c, Ground::Token)),
    };
    put(out, n, plain(kind as u32, 1, 0, c.start));
    Ok(Read {
        at: d,
        records: n + 1,
        string: None,
    })
}

// The variable that the name at c is, unless it is reserved; d stands behind it.
pub fn variable_at(
    s: &[u8],
    reserved: &[u8],
    c: Cursor,
    d: Cursor,
    out: &mut [u32],
    n: u32,
) -> Result<Read, Fault>
    requires { Ready s.now c n × Follows s.now c d × (c.code ≡ 1) }
    ensures { Meets s.now (named (words_in reserved.now [] []) (token_at s.now c) (toks_at s.now d.start)) n out.old result out.new }
{
    let a = c.start as usize;
    let e = c.end as usize;
    if place_in(reserved, &s[a..e]).is_some() {
        return Err(Fault::at(c, Ground::Reserved));
    }
    put(out, n, named_node(Kind::Variable, c, 1, 0, c.start));
    Ok(Read {
        at: d,
        records: n + 1,
        string: None,
    })
}

// A node that has the name at c.
pub fn named_node(kind: Kind, c: Cursor, nodes: u32, parts: u32, place: u16) -> Node
    requires { c.start ≤ c.end }
    ensures { result ≡ record { kind = kind_number kind; nodes = nodes; parts = parts; f1 = c.start; f2 = c.end - c.start; f3 = 0; f4 = 0; place = place } }
{
    Node {
        kind: kind as u32,
        nodes,
        parts,
        f1: c.start as u32,
        f2: (c.end - c.start) as u32,
        f3: 0,
        f4: 0,
        place: place as u32,
    }
}

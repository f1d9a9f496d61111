// The records of a chain of `**` that groups right: those of its operands come first, then a Pow for each but the last, from the
// right. While the chain is read, each operand waits with the place where its text begins packed into the kind of its last record,
// its root: memory is bounded by the records, however long the chain is.
ghost use Rattle.std.specs.Prelude.{◌≡◌, true, ◌+◌, ◌≤◌};
ghost use Rattle.tokens.specs.Dates.{unless_0};
ghost use Rattle.reading.specs.Powers.{Marks, Raises, Closes, sign_of, Steps};

use crate::records::{Joined, Kind, Node, join, put};
use tokens::codes::POWER;

// More than any kind.
const KINDS: u32 = 64;

// Packs the place of an operand into its root, the record before m, where that fits whole; and answers where the records end that
// such roots close.
fn mark(out: &mut [u32], fits: u32, m: u32, place: u16) -> u32
    requires { 1 ≤ m }
    ensures { Marks out.old fits m place result out.new }
{
    let i = m as usize - 1;
    if i < out.len() / Node::WIDTH {
        let at = Node::WIDTH * i;
        out[at] = out[at] % KINDS + KINDS * place as u32;
        return m;
    }
    fits
}

// The Pow records of a chain, from the record m on. Its operands stand in the records from n on, and those that wait and fit end
// at `fits`.
fn raise(out: &mut [u32], n: u32, fits: u32, m: u32)
    requires { (fits ≤ m) × (m ≤ 50000) }
    ensures { Raises out.old n fits m out.new }
{
    let mut e = fits;
    let mut j = m;
    // Each root says how far back the next one is, so no range gives the places.
    while n < e {
        let i = e as usize - 1;
        if out.len() / Node::WIDTH <= i {
            return;
        }
        let at = Node::WIDTH * i;
        let word = out[at];
        let size = out[at + 1];
        if size == 0 {
            return;
        }
        if e - n < size {
            return;
        }
        out[at] = word % KINDS;
        e -= size;
        put(
            out,
            j,
            Node {
                kind: Kind::Pow as u32,
                nodes: j - e + 1,
                parts: 2,
                f1: 0,
                f2: 0,
                f3: 0,
                f4: 0,
                place: word / KINDS,
            },
        );
        j += 1;
    }
}

// The end of a chain of `count` operands that wait and the last one, whose records end at m: it is the chain where none waits.
fn raised(out: &mut [u32], count: u32, n: u32, fits: u32, m: u32, p: Option<u16>) -> Joined
    requires { (fits ≤ m) × (m + count ≤ 50000) }
    ensures { Closes out.old count n fits m p result out.new }
{
    if count == 0 {
        return Joined {
            records: m,
            string: p,
        };
    }
    raise(out, n, fits, m);
    Joined {
        records: m + count,
        string: None,
    }
}

// What a turn of the chain leaves: how many records there are then, where those end that waiting operands fill, and where the
// string of the last one stands. With a `Joined` inside it, its uses would only be longer: `k.joined.records`.
#[derive(Clone, Copy)]
pub struct Stepped {
    pub records: u32,
    pub fits: u32,
    pub string: Option<u16>,
}

// The sign before an operand, `count` others before it.
fn sign_of(count: u32) -> Option<u8>
    ensures { result ≡ unless_0 (sign_of count) }
{
    if count == 0 { None } else { Some(POWER) }
}

// One operand, whose records end at m and whose text begins at the place, behind `count` others of a chain that begins at
// `first`; `more` says whether a `**` follows. In the first edition it is joined to those before it. In the second it waits for
// the next, or is the last, and then all are joined. A chain's numbers change one by one from turn to turn, and `mark` and
// `raise` want some of them alone: a struct for all would be made anew at each turn, and is no plainer.
pub fn step(
    out: &mut [u32],
    two: bool,
    more: bool,
    count: u32,
    n: u32,
    fits: u32,
    m: u32,
    p: Option<u16>,
    first: u16,
    place: u16,
) -> Stepped
    requires { (n ≤ m) × (1 ≤ m) × (m + count ≤ 50000) × (two ≡ true → fits ≤ m) }
    ensures { Steps two more out.old count n fits m p first place result out.new }
{
    if !two {
        let j = join(out, sign_of(count), n, m, p, first);
        return Stepped {
            records: j.records,
            fits,
            string: j.string,
        };
    }
    if more {
        let e = mark(out, fits, m, place);
        return Stepped {
            records: m,
            fits: e,
            string: None,
        };
    }
    let k = raised(out, count, n, fits, m, p);
    Stepped {
        records: k.records,
        fits,
        string: k.string,
    }
}

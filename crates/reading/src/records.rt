// Records in lent memory.
ghost use Rattle.std.specs.Prelude.{◌≡◌, ◌≤◌, Some};
ghost use Rattle.reading.specs.Rows.{kind_number, node_row, put_at, put_row, entry_row, put_entry};
ghost use Rattle.reading.specs.Joins.{Joins, sign_or_0};

// The kinds of records, each with its number. Where a sign joins two records, its kind's number is its token's.
#[derive(Clone, Copy)]
pub enum Kind {
    Variable = 1,
    Constant = 2,
    True = 3,
    False = 4,
    String = 5,
    List = 6,
    UnaryMinus = 7,
    Add = 8,
    Subtract = 9,
    Multiply = 10,
    Divide = 11,
    Pow = 12,
    Equal = 13,
    NotEqual = 14,
    Superior = 15,
    Inferior = 16,
    SuperiorOrEqual = 17,
    InferiorOrEqual = 18,
    And = 19,
    Or = 20,
    Ln = 21,
    Exp = 22,
    Min = 23,
    Max = 24,
    Cvg = 25,
    Fif = 26,
    Range = 27,
    Index = 28,
    Append = 29,
    Mean = 30,
    Std = 31,
    Spot = 32,
    EquitySpot = 33,
    Df = 34,
    RateIndex = 35,
    Pays = 36,
    Assign = 37,
    If = 38,
    ForEach = 39,
}

impl Kind {
    pub fn number(self) -> u32
        ensures { result ≡ kind_number self }
    {
        self as u32
    }
}

// The numbers of the kinds that hold names or dates, as memory has them: a `TryFrom` for `Kind` would be 39 arms for three
// matches of two to five.
pub const VARIABLE: u32 = Kind::Variable as u32;

pub const STRING: u32 = Kind::String as u32;

pub const SPOT: u32 = Kind::Spot as u32;

pub const EQUITY_SPOT: u32 = Kind::EquitySpot as u32;

pub const DF: u32 = Kind::Df as u32;

pub const RATE_INDEX: u32 = Kind::RateIndex as u32;

pub const PAYS: u32 = Kind::Pays as u32;

pub const FOR_EACH: u32 = Kind::ForEach as u32;

// The words of a record: kind, nodes in subtree, direct parts, f1 to f4, place.
#[derive(Clone, Copy)]
pub struct Node {
    pub kind: u32,
    pub nodes: u32,
    pub parts: u32,
    pub f1: u32,
    pub f2: u32,
    pub f3: u32,
    pub f4: u32,
    pub place: u32,
}

impl Node {
    pub const WIDTH: usize = 8;

    pub const MOST: usize = 2048;
}

// A node without fields. Its kind is a number, since `join` and `assignments::compound` have a token's.
pub fn plain(kind: u32, nodes: u32, parts: u32, place: u16) -> Node
    ensures { result ≡ record { kind = kind; nodes = nodes; parts = parts; f1 = 0; f2 = 0; f3 = 0; f4 = 0; place = place } }
{
    Node {
        kind,
        nodes,
        parts,
        f1: 0,
        f2: 0,
        f3: 0,
        f4: 0,
        place: place as u32,
    }
}

// A node without parts, with its fields.
pub fn leaf(kind: Kind, f1: u32, f2: u32, f3: u32, f4: u32, place: u16) -> Node
    ensures { result ≡ record { kind = kind_number kind; nodes = 1; parts = 0; f1 = f1; f2 = f2; f3 = f3; f4 = f4; place = place } }
{
    Node {
        kind: kind.number(),
        nodes: 1,
        parts: 0,
        f1,
        f2,
        f3,
        f4,
        place: place as u32,
    }
}

// Writes the words that are the n-th of their width, where they fit whole.
fn put_at<const W: usize>(out: &mut [u32], n: u32, words: [u32; W])
    requires { 1 ≤ W }
    ensures { out.new ≡ put_at W out.old n words.entry }
{
    let k = n as usize;
    if k < out.len() / W {
        let at = W * k;
        out[at..at + W].copy_from_slice(&words);
    }
}

// Writes the record n, where it fits whole. Readers are handed the words and a count apart: where a struct lends words by
// `&mut`, each contract has to say that they are the same slice, and the earlier counts, which tell a node's size, stay beside it.
pub fn put(out: &mut [u32], n: u32, node: Node)
    ensures { out.new ≡ put_row out.old n (node_row node) }
{
    put_at(
        out,
        n,
        [
            node.kind, node.nodes, node.parts, node.f1, node.f2, node.f3, node.f4, node.place,
        ],
    );
}

// How many records there are behind an operand, and where its string stands.
#[derive(Clone, Copy)]
pub struct Joined {
    pub records: u32,
    pub string: Option<u16>,
}

// Joins an operand to those before it, whose records are those from n, by the record of the sign between them, at the
// place where the first of them begins. The first operand has no sign before it, and stays as it is.
pub fn join(out: &mut [u32], sign: Option<u8>, n: u32, m: u32, p: Option<u16>, place: u16) -> Joined
    requires { (n ≤ m) × (m ≤ 50000) × (sign ≡ Some 0 → ⊥) }
    ensures { Joins out.old (sign_or_0 sign) n m p place result out.new }
{
    let Some(sign) = sign else {
        return Joined {
            records: m,
            string: p,
        };
    };
    put(out, m, plain(sign as u32, m - n + 1, 2, place));
    Joined {
        records: m + 1,
        string: None,
    }
}

// The words of a directory entry: start byte, end byte, records, tokens, the latest date. They are as they are written; `Row`
// in the crate amending has the same as it counts with them.
#[derive(Clone, Copy)]
pub struct Entry {
    pub start: u32,
    pub end: u32,
    pub records: u32,
    pub tokens: u32,
    pub latest: u32,
}

impl Entry {
    pub const WIDTH: usize = 5;

    pub const MOST: usize = 512;
}

// Writes the entry k, where it fits whole.
pub fn put_entry(directory: &mut [u32], k: u32, entry: Entry)
    ensures { directory.new ≡ put_entry directory.old k (entry_row entry) }
{
    put_at(
        directory,
        k,
        [
            entry.start,
            entry.end,
            entry.records,
            entry.tokens,
            entry.latest,
        ],
    );
}

// What is known of a case between its lines.
ghost use Rattle.std.specs.Prelude.{◌≡◌};
ghost use Rattle.vectors.specs.Comparing.{slices_same};

use crate::memory::Memory;
use amending::held::Held;
use std::io::Stdout;
use tokens::lists::Lists;

// The three slices that a call is lent to be changed.
#[derive(Clone, Copy)]
pub struct Slices {
    pub script: Memory<u8>,
    pub records: Memory<u32>,
    pub directory: Memory<u32>,
}

impl Slices {
    // Whether each lent byte and word is as it was.
    #[tactic(auto, using(crate::proofs::ComparingLaws::pointwise_same))]
    pub fn are_same(&self, before: &Slices) -> bool
        ensures { result ≡ slices_same self.now before.now }
    {
        self.script.lent() == before.script.lent()
            && self.records.lent() == before.records.lent()
            && self.directory.lent() == before.directory.lent()
    }
}

// The three lists of names that a call is lent.
#[derive(Clone, Copy)]
pub struct Names {
    pub reserved: Memory<u8>,
    pub currencies: Memory<u8>,
    pub counters: Memory<u8>,
}

impl Names {
    pub fn lent(&self) -> Lists<'_> {
        Lists {
            reserved: self.reserved.lent(),
            currencies: self.currencies.lent(),
            counters: self.counters.lent(),
        }
    }
}

#[derive(Clone, Copy)]
pub struct Case<'a> {
    // Where what differs is told.
    pub out: Stdout,
    // The text of the file, which defines names, and of the case.
    pub file: &'a [u8],
    pub text: &'a [u8],
    // The edition that a read names.
    pub edition: u32,
    // The counts, the latest date and the edition that an amend is lent.
    pub held: Held,
    pub names: Names,
    pub slices: Slices,
    // Whether the last call changed any of the slices, once one was run.
    pub changed: Option<bool>,
}

const NOTHING_HELD: Held = Held {
    bytes: 0,
    statements: 0,
    records: 0,
    tokens: 0,
    latest: 0,
    edition: 0,
};

impl<'a> Case<'a> {
    // Before the first case of a file, which is told of as its first line.
    pub fn new(out: Stdout, file: &'a [u8]) -> Case<'a> {
        let text = file.split(|b| *b == b'\n').next().unwrap_or(file);
        Case {
            out,
            file,
            text,
            edition: 0,
            held: NOTHING_HELD,
            names: Names {
                reserved: Memory::new(0),
                currencies: Memory::new(0),
                counters: Memory::new(0),
            },
            slices: Slices {
                script: Memory::new(0),
                records: Memory::new(0),
                directory: Memory::new(0),
            },
            changed: None,
        }
    }

    // A case begins: all memory is forgotten, and the edition named is 1.
    pub fn begin(&mut self, text: &'a [u8]) {
        self.text = text;
        self.edition = 1;
        self.held = NOTHING_HELD;
        self.names.reserved.clear();
        self.names.currencies.clear();
        self.names.counters.clear();
        self.slices.script.clear();
        self.slices.records.clear();
        self.slices.directory.clear();
        self.changed = None;
    }
}

// What was counted. No run reaches the largest number, which none counts beyond.
use crate::trouble::Trouble;

// The grounds on which a call answers, 0 among them.
pub const GROUNDS: usize = 27;

// The reads and amends with an answer, and those of them that differ.
#[derive(Clone, Copy)]
pub struct Answered {
    pub ran: u32,
    pub differ: u32,
}

#[derive(Drop)]
pub struct Tally {
    pub grounds: [Answered; GROUNDS],
    pub cases: u32,
    pub reads: u32,
    pub amends: u32,
    pub parts: u32,
    // The lines that say what a call must have left.
    pub compared: u32,
    pub differences: u32,
    // The lines that were not taken.
    pub refused: u32,
}

// One more.
pub fn count(n: &mut u32) {
    *n = n.saturating_add(1);
}

impl Tally {
    pub fn new() -> Tally {
        Tally {
            grounds: [Answered { ran: 0, differ: 0 }; GROUNDS],
            cases: 0,
            reads: 0,
            amends: 0,
            parts: 0,
            compared: 0,
            differences: 0,
            refused: 0,
        }
    }

    // A line differs or was not taken.
    pub fn count_trouble(&mut self, trouble: Trouble) {
        match trouble {
            Trouble::Differs => count(&mut self.differences),
            Trouble::NoRoom | Trouble::Malformed => count(&mut self.refused),
        }
    }
}

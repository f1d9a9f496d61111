// A directory in lent words: whether its entries are in order, how many records stand before one, and their latest date.
ghost use Rattle.std.specs.Prelude.{◌≡◌, ◌&&◌, ◌*◌, ◌^◌, ◌≤◌, ◌<◌, max, leb, ltb, eqb, length, if◌then◌else◌};
ghost use Rattle.grammar.specs.Sizes.{entry_width};
ghost use Rattle.grammar.specs.Words.{latest_of};
ghost use Rattle.amending.specs.Lent.{sum_records};
ghost use Rattle.amending.specs.Entries.{rows_from, entry, row_fits};
ghost use Rattle.amending.specs.Grounds.{has_order};

use crate::held::Held;
use crate::rows::Row;
use reading::rooms::ENTRY_WIDTH;

// What some entries leave for those behind them: where the last ends, how many records and tokens are left, and the latest date
// so far.
#[derive(Clone, Copy)]
struct Rest {
    after: usize,
    records: usize,
    tokens: usize,
    latest: usize,
}

impl Rest {
    // Whether an entry lies behind the last, is not empty, has a record and a token, and no more of them than are left: 0 wraps
    // to the greatest number, so that one test tells both.
    fn has(&self, row: &Row) -> bool
        ensures { result ≡ row_fits self.now.after self.now.records self.now.tokens (entry row.now) }
    {
        self.after <= row.start
            && row.start < row.end
            && row.records.wrapping_sub(1) < self.records
            && row.tokens.wrapping_sub(1) < self.tokens
    }

    // Whether the last entry ends inside the script, no records and tokens are left, and the latest date is the one that was
    // seen.
    fn is_all_of(&self, held: &Held) -> bool
        ensures { result ≡ (leb self.now.after held.now.bytes && (eqb self.now.records 0 && (eqb self.now.tokens 0 && eqb held.now.latest self.now.latest))) }
    {
        self.after <= held.bytes
            && self.records == 0
            && self.tokens == 0
            && held.latest == self.latest
    }
}

// Whether the directory has as many entries as are held, in order, with these totals of bytes, records and tokens, and this
// latest date. What an entry counts is taken from what is left, so that no sum can wrap.
#[tactic(auto, using(crate::proofs::OrderLaws::counted_first, crate::proofs::OrderLaws::counted_next, crate::proofs::OrderLaws::counted_none, crate::proofs::OrderLaws::fits_are))]
pub fn in_order(directory: &[u32], held: &Held) -> bool
    ensures { result ≡ has_order directory.now held.now }
{
    if directory.len() / ENTRY_WIDTH < held.statements {
        return false;
    }
    let mut rest = Rest {
        after: 0,
        records: held.records,
        tokens: held.tokens,
        latest: 0,
    };
    for number in 0..held.statements {
        let row = Row::at(directory, number);
        if !rest.has(&row) {
            return false;
        }
        rest = Rest {
            after: row.end,
            records: rest.records - row.records,
            tokens: rest.tokens - row.tokens,
            latest: rest.latest.max(row.latest),
        };
    }
    rest.is_all_of(held)
}

// How many records the first `number` statements have.
#[tactic(auto, using(crate::proofs::EntryLaws::records_turn, crate::proofs::EntryLaws::records_none))]
pub fn records_before(directory: &[u32], number: usize) -> usize
    requires { (entry_width * number ≤ length directory.now) × (sum_records (rows_from number directory.now) < 2 ^ 64) }
    ensures { result ≡ sum_records (rows_from number directory.now) }
{
    let mut sum = 0;
    for k in 0..number {
        sum += Row::at(directory, k).records;
    }
    sum
}

// The latest date of the first `number` entries.
#[tactic(auto, using(crate::proofs::EntryLaws::latest_turn, crate::proofs::EntryLaws::latest_none))]
fn latest_entry(directory: &[u32], number: usize) -> usize
    requires { entry_width * number ≤ length directory.now }
    ensures { result ≡ latest_of (rows_from number directory.now) }
{
    // The words as they are, since the compiler takes several of 32 bits at once.
    let mut latest: u32 = 0;
    for k in 0..number {
        latest = directory[ENTRY_WIDTH * k + 4].max(latest);
    }
    latest as usize
}

// The latest date of a directory of `number` entries in which one of the date `gone` was replaced by others, whose latest is
// `new`; it was `old`. Only where the entry that is gone had it, and nothing as late came, the others are asked.
pub fn latest_then(directory: &[u32], number: usize, old: usize, gone: usize, new: usize) -> usize
    requires { entry_width * number ≤ length directory.now }
    ensures { result ≡ (if ltb gone old then max old new else if leb old new then new else latest_of (rows_from number directory.now)) }
{
    if gone < old {
        return old.max(new);
    }
    if old <= new {
        return new;
    }
    latest_entry(directory, number)
}

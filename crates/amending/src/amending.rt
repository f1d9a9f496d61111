// One statement's text is replaced by a new text, in lent memory that holds a script that was read.
ghost use Rattle.std.specs.Prelude.{◌≡◌};
ghost use Rattle.tokens.specs.LentLists.{lists_of};
ghost use Rattle.tokens.specs.Refusals.{number_of};
ghost use Rattle.amending.specs.Memory.{amend_in, as_memory, dated, accepted_with, refused_at, Amends, SameSlices};
ghost use Rattle.amending.specs.Grounds.{Ready, Fits, Left};

use crate::grounds::verdict_on;
use crate::held::Held;
use crate::memory::Memory;
use crate::moves::{replace_bytes, resize};
use crate::orders::{latest_then, records_before};
use crate::rows::Row;
use crate::shifts::shift_entries;
use reading::judging::Counts;
use reading::reading::{Answer, read, refusal};
use reading::rooms::{ENTRY_WIDTH, RECORD_WIDTH};
use tokens::lists::Lists;
use tokens::refusals::Refusal;

// Replaces the text of a statement: 26, 20, 17, 19, then the new text read alone (1 to 15), 18, 16 over the totals; or the
// whole is as if it had been read anew.
#[tactic(auto, using(crate::proofs::ReplaceLaws::ready, crate::proofs::ReplaceLaws::refuses, crate::proofs::ReplaceLaws::makes))]
pub fn amend(
    memory: &mut Memory<'_>,
    held: Held,
    statement: usize,
    text: &[u8],
    lists: &Lists<'_>,
) -> Answer
    ensures amends { Amends (lists_of lists.now) (as_memory memory.old) held statement text.now result (as_memory memory.new) }
    ensures slices { SameSlices memory.old memory.new }
{
    match verdict_on(memory, held, statement, text, lists) {
        Ok(fit) => {
            let latest = replace(memory, held, statement, text, lists, fit.counts);
            acceptance(fit.whole, latest)
        }
        Err(refusal) => unchanged(held, text, refusal),
    }
}

// Makes the room, and reads the new text into it. What stands behind is moved, and its places with it. Returns the latest date
// of the whole.
fn replace(
    memory: &mut Memory<'_>,
    held: Held,
    statement: usize,
    text: &[u8],
    lists: &Lists<'_>,
    c: Counts,
) -> usize
    requires ready { Ready memory.old.script.now memory.old.records.now memory.old.directory.now held statement text.now c }
    requires fits { (w : Held) × Fits (lists_of lists.now) (as_memory memory.old) held statement text.now c w }
    ensures left { Left held (amend_in (lists_of lists.now) (as_memory memory.old) held statement text.now) (as_memory memory.old) result (as_memory memory.new) }
    ensures slices { SameSlices memory.old memory.new }
{
    let script = &mut *memory.script;
    let records = &mut *memory.records;
    let directory = &mut *memory.directory;
    let at = ENTRY_WIDTH * statement;
    let row = Row::at(directory, statement);
    let from = RECORD_WIDTH * records_before(directory, statement);
    let later = statement + c.statements;
    let statements = held.statements - 1 + c.statements;
    replace_bytes(script, held.bytes, row.start..row.end, text);
    resize(
        records,
        RECORD_WIDTH * held.records,
        from..from + RECORD_WIDTH * row.records,
        RECORD_WIDTH * c.records,
        0,
    );
    resize(
        directory,
        ENTRY_WIDTH * held.statements,
        at..at + ENTRY_WIDTH,
        ENTRY_WIDTH * c.statements,
        0,
    );
    let records_end = from + RECORD_WIDTH * c.records;
    let entries_end = at + ENTRY_WIDTH * c.statements;
    let own = read(
        text,
        held.edition,
        lists,
        &mut records[from..records_end],
        &mut directory[at..entries_end],
    );
    let start = row.start as u32;
    let end = row.end as u32;
    shift_entries(directory, statement, later, 0, start);
    shift_entries(directory, later, statements, end, start + text.len() as u32);
    latest_then(directory, statements, held.latest, row.latest, own.latest)
}

// No `From`, here and below: what is held does not tell whether it was accepted, and the latest date comes beside it.
fn acceptance(whole: Held, latest: usize) -> Answer
    ensures { result ≡ accepted_with (dated latest whole) }
{
    Answer {
        number: 0,
        byte: 0,
        line: 1,
        column: 1,
        bytes: whole.bytes,
        statements: whole.statements,
        records: whole.records,
        tokens: whole.tokens,
        latest,
        edition: whole.edition,
    }
}

// A refusal: its place is in the new text; the counts, the latest date and the edition are the old ones.
fn unchanged(held: Held, text: &[u8], e: Refusal) -> Answer
    ensures { result ≡ refused_at held text.now (number_of e.cause) e.byte }
{
    Answer {
        bytes: held.bytes,
        statements: held.statements,
        records: held.records,
        tokens: held.tokens,
        latest: held.latest,
        edition: held.edition,
        ..refusal(text, e.cause.number(), e.byte)
    }
}

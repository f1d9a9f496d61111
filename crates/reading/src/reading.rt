// A script read into lent memory.
ghost use Rattle.std.specs.Prelude.{◌≡◌};
ghost use Rattle.tokens.specs.LentLists.{lists_of};
ghost use Rattle.grammar.specs.Script.{number_of};
ghost use Rattle.reading.specs.Editions.{edition_of};
ghost use Rattle.reading.specs.Reading.{accepted_with, refused_at, answered, LeavesIn, Leaves};

use crate::editions::Edition;
use crate::judging::{Counts, judge};
use crate::language::Language;
use crate::rooms::{record_room, statement_room};
use crate::scripts::all;
use tokens::lists::Lists;
use tokens::places::place_of;
use tokens::refusals::{Ground, Refusal};

// What a call answers: the number of its refusal, or 0; where; and what the memory holds then. A struct of numbers and no Result,
// since these are the ten words that C gets, the counts of a refusal among them.
#[derive(Clone, Copy)]
pub struct Answer {
    pub number: u32,
    pub byte: usize,
    pub line: usize,
    pub column: usize,
    pub bytes: usize,
    pub statements: usize,
    pub records: usize,
    pub tokens: usize,
    pub latest: usize,
    pub edition: u32,
}

// Reads a script of the edition that is named, 1 or 2: 26 for another number, before all other grounds. Records and directory
// are lent apart, as in C, and for the reason at `records::put`. The edition is a number, as in C (`script_read`), where it can be
// another.
pub fn read(
    script: &[u8],
    edition: u32,
    lists: &Lists,
    records: &mut [u32],
    directory: &mut [u32],
) -> Answer
    ensures { Leaves edition (lists_of lists.now) script.now records.old directory.old result records.new directory.new }
{
    let edition = match Edition::try_from(edition) {
        Ok(edition) => edition,
        Err(ground) => return refusal(script, ground.number(), 0),
    };
    match read_in(script, edition, lists, records, directory) {
        Ok(accepted) => accepted,
        Err(e) => refusal(script, e.cause.number(), e.byte),
    }
}

// Reads a script: its records and its directory are written once nothing can refuse it any more.
fn read_in(
    script: &[u8],
    edition: Edition,
    lists: &Lists,
    records: &mut [u32],
    directory: &mut [u32],
) -> Result<Answer, Refusal>
    ensures { LeavesIn (edition_of edition) (lists_of lists.now) script.now records.old directory.old (answered script.now result) records.new directory.new }
{
    let c = judge(script, edition, lists)?;
    if c.records > record_room(records.len()) || c.statements > statement_room(directory.len()) {
        return Err(Refusal {
            cause: Ground::Room,
            byte: c.bytes,
        });
    }
    let language = Language {
        two: edition.is_second(),
        lists: *lists,
    };
    let r = all(&script[..c.bytes], &language, records, directory)?;
    Ok(acceptance(edition, c, r.latest as usize))
}

fn acceptance(edition: Edition, c: Counts, latest: usize) -> Answer
    ensures { result ≡ accepted_with (number_of (edition_of edition)) c latest }
{
    Answer {
        number: 0,
        byte: 0,
        line: 1,
        column: 1,
        bytes: c.bytes,
        statements: c.statements,
        records: c.records,
        tokens: c.tokens,
        latest,
        edition: edition.number(),
    }
}

// A refusal, with the line and the column of its byte; the counts are 0, and so are the latest date and the edition.
pub fn refusal(script: &[u8], number: u32, byte: usize) -> Answer
    ensures { result ≡ refused_at script.now number byte }
{
    let place = place_of(script, byte);
    Answer {
        number,
        byte,
        line: place.line,
        column: place.column,
        bytes: 0,
        statements: 0,
        records: 0,
        tokens: 0,
        latest: 0,
        edition: 0,
    }
}

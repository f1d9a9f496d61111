// The lookup of a record's name, run and compared.
ghost use Rattle.std.specs.Prelude.{◌≡◌};
ghost use Rattle.vectors.specs.Comparing.{place_stored, part_stored};

use crate::case::Case;
use crate::fields::{first_field, number, numbers};
use crate::memory::{Memory, front};
use crate::report::{say_part, say_place};
use crate::trouble::Trouble;
use reading::parts::{Place, part, place_of};
use reading::rooms::RECORD_WIDTH;
use std::io::Stdout;

// What a lookup is asked: a name of a record, first or second, in a script and a list of currencies.
#[derive(Clone, Copy)]
struct Asked<'a> {
    out: Stdout,
    script: &'a [u8],
    currencies: &'a [u8],
    record: &'a [u32],
    start: u32,
    second: bool,
}

// Whether a part begins at the stored place of the stored source, and is so long. Each word by itself, as `place_stored` says
// it: `Place` is of the crate reading, which derives no equality.
#[tactic(auto, unfolding(crate::specs::Comparing::place_stored))]
fn is_placed(found: Place, stored: Place) -> bool
    ensures { result ≡ place_stored found stored.in_list stored.from stored.size }
{
    found.in_list == stored.in_list && found.from == stored.from && found.size == stored.size
}

// Whether a part has the length and the bytes of the stored one of its source.
#[tactic(auto, using(crate::proofs::ComparingLaws::pointwise_same, crate::proofs::ComparingLaws::part_bytes), unfolding(crate::specs::Comparing::part_stored))]
fn is_part(given: &[u8], source: &[u8], stored: Place) -> bool
    ensures { result ≡ part_stored given.now source.now stored.from stored.size }
{
    given.len() == stored.size
        && stored.from <= source.len()
        && given == front(&source[stored.from..], stored.size)
}

// Which name a field asks for: the first, or a Spot's second.
fn is_second(field: &[u8]) -> Result<bool, Trouble> {
    match number(field, 10) {
        Ok(1) => Ok(false),
        Ok(2) => Ok(true),
        _ => Err(Trouble::Malformed),
    }
}

// Which source a field names: the script, or the list of currencies.
fn is_list(field: &[u8]) -> Result<bool, Trouble> {
    match field {
        b"s" => Ok(false),
        b"c" => Ok(true),
        _ => Err(Trouble::Malformed),
    }
}

impl<'a> Asked<'a> {
    // Runs the lookup by numbers, and compares.
    fn is_found(&self, stored: Place) -> bool {
        let found = place_of(
            self.script,
            self.currencies,
            self.record,
            self.start,
            self.second,
        );
        let same = is_placed(found, stored);
        if !same {
            say_place(self.out, found);
        }
        same
    }

    // Runs the lookup that hands back a slice, and compares the bytes. Where they begin no run can tell, since the language
    // compares no addresses: the contract of `part` ties that to the lookup by numbers.
    fn is_handed_back(&self, stored: Place) -> bool {
        let given = part(
            self.script,
            self.currencies,
            self.record,
            self.start,
            self.second,
        );
        let source = if stored.in_list {
            self.currencies
        } else {
            self.script
        };
        let same = is_part(given, source, stored);
        if !same {
            say_part(self.out, given);
        }
        same
    }
}

// Takes a line that asks for a part: the words of a record, its statement's start, which name, and the part that is expected.
// Runs both lookups, and each tells of what differs.
pub fn take_part(case: &Case, fields: &[u8]) -> Result<(), Trouble> {
    let (words, fields) = first_field(fields);
    let (start, fields) = first_field(fields);
    let (which, fields) = first_field(fields);
    let (source, fields) = first_field(fields);
    let mut record = Memory::new(0);
    if record.load_words(words).is_err() || record.lent().len() != RECORD_WIDTH {
        return Err(Trouble::Malformed);
    }
    let [from, size] = numbers::<2>(fields)?;
    let asked = Asked {
        out: case.out,
        script: front(case.slices.script.lent(), case.held.bytes),
        currencies: case.names.currencies.lent(),
        record: record.lent(),
        start: number(start, 10)?,
        second: is_second(which)?,
    };
    let stored = Place {
        in_list: is_list(source)?,
        from: from as usize,
        size: size as usize,
    };
    let found = asked.is_found(stored);
    let same = asked.is_handed_back(stored);
    if found && same {
        Ok(())
    } else {
        Err(Trouble::Differs)
    }
}

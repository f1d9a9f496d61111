// The calls that `archive_c` exports to C and Rust: reading, amending, the lookup, and the calendar. Answers, places and days
// are words of 32 bits in lent arrays, and the arguments are those of the C interface.
#![tactic(auto)]

ghost use Rattle.std.specs.Prelude.{◌≡◌};
ghost use Rattle.calendar.specs.Calendar.{dated, count_of, day_of};
ghost use Rattle.reading.specs.Judging.{lists_in};
ghost use Rattle.reading.specs.Parts.{part_named, placed};
ghost use Rattle.amending.specs.Memory.{memory};
ghost use Rattle.archive.specs.Exports.{word, answer_words, held_in, place_words, day_words, Reads, Replaces};

use amending::amending::amend;
use amending::held::Held;
use amending::memory::Memory;
use calendar::days::{count_of, day_of};
use reading::parts::{Place, place_of};
use reading::reading::{Answer, read};
use tokens::lists::Lists;

// Reads a script of the edition 1 or 2 into records and directory.
pub fn script_read(
    script: &[u8],
    edition: u32,
    reserved: &[u8],
    currencies: &[u8],
    day_counters: &[u8],
    records: &mut [u32],
    directory: &mut [u32],
    answer: &mut [u32; 10],
)
    ensures { Reads edition (lists_in reserved.now currencies.now day_counters.now) script.now records.old directory.old answer.new records.new directory.new }
{
    let lists = Lists {
        reserved,
        currencies,
        counters: day_counters,
    };
    let a = read(script, edition, &lists, records, directory);
    *answer = answer_words(a);
}

// Replaces the text of one statement. The last six words of the answer say at entry how much of the memory is used, the
// script's latest date, and its edition, as an earlier call left them.
pub fn script_amend(
    script: &mut [u8],
    statement: u32,
    text: &[u8],
    reserved: &[u8],
    currencies: &[u8],
    day_counters: &[u8],
    records: &mut [u32],
    directory: &mut [u32],
    answer: &mut [u32; 10],
)
    ensures { Replaces (lists_in reserved.now currencies.now day_counters.now) (memory script.old records.old directory.old) answer.old statement text.now answer.new (memory script.new records.new directory.new) }
{
    let mut memory = Memory {
        script,
        records,
        directory,
    };
    let lists = Lists {
        reserved,
        currencies,
        counters: day_counters,
    };
    let a = amend(
        &mut memory,
        held_in(answer),
        statement as usize,
        text,
        &lists,
    );
    *answer = answer_words(a);
}

// Says where the part is that a record names: of the script (0) or of the list of currencies (1), first byte, length.
pub fn script_part(
    script: &[u8],
    currencies: &[u8],
    record: &[u32; 8],
    start: u32,
    second: bool,
    place: &mut [u32; 3],
)
    ensures { place.new ≡ place_words (placed (part_named script.now currencies.now «record».now start second)) }
{
    let p = place_of(script, currencies, record, start, second);
    *place = place_words(p);
}

// The count of a day, as records have it; 0 where there is no such day.
pub fn calendar_count(year: u32, month: u32, day: u32) -> u32
    ensures { result ≡ count_of (dated year month day) }
{
    count_of(year, month, day)
}

// Says which day has a count: year, month, day, and 0, 0, 0 where none has it.
#[tactic(auto, unfolding(crate::specs::Exports::day_words))]
pub fn calendar_day(count: u32, day: &mut [u32; 3])
    ensures { day.new ≡ day_words (day_of count) }
{
    let d = day_of(count);
    *day = [d.year, d.month, d.day];
}

// Words and structs are turned by functions: the structs are of other crates, so no `From` of theirs can stand here.

#[tactic(auto, unfolding(crate::specs::Exports::held_in))]
fn held_in(words: &[u32; 10]) -> Held
    ensures { result ≡ held_in words.now }
{
    Held {
        bytes: words[4] as usize,
        statements: words[5] as usize,
        records: words[6] as usize,
        tokens: words[7] as usize,
        latest: words[8] as usize,
        edition: words[9],
    }
}

#[tactic(auto, unfolding(crate::specs::Exports::answer_words))]
fn answer_words(a: Answer) -> [u32; 10]
    ensures { result ≡ answer_words a }
{
    [
        a.number,
        low_word(a.byte),
        low_word(a.line),
        low_word(a.column),
        low_word(a.bytes),
        low_word(a.statements),
        low_word(a.records),
        low_word(a.tokens),
        low_word(a.latest),
        a.edition,
    ]
}

#[tactic(auto, unfolding(crate::specs::Exports::place_words))]
fn place_words(p: Place) -> [u32; 3]
    ensures { result ≡ place_words p }
{
    [p.in_list as u32, low_word(p.from), low_word(p.size)]
}

fn low_word(n: usize) -> u32
    ensures { result ≡ word n }
{
    (n % 0x1_0000_0000) as u32
}

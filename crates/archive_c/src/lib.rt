// What C and Rust link: each call of `archive` under the name that the header has, with the same promise.
#![tactic(auto)]

ghost use Rattle.std.specs.Prelude.{◌≡◌};
ghost use Rattle.calendar.specs.Calendar.{dated, count_of, day_of};
ghost use Rattle.reading.specs.Judging.{lists_in};
ghost use Rattle.reading.specs.Parts.{part_named, placed};
ghost use Rattle.amending.specs.Memory.{memory};
ghost use Rattle.archive.specs.Exports.{place_words, day_words, Reads, Replaces};

// Reads a script of the edition 1 or 2 into records and directory.
#[unsafe(no_mangle)]
pub extern "C" fn script_read(
    script: &[u8],
    edition: u32,
    reserved: &[u8],
    currencies: &[u8],
    day_counters: &[u8],
    records: &mut [u32],
    directory: &mut [u32],
    answer: &mut [u32; 10],
)
    ensures { Reads edition (lists_in reserved.now currencies.now day_counters.now) script.now records.old directory.old answer.new records.new directory.new }
{
    archive::script_read(
        script,
        edition,
        reserved,
        currencies,
        day_counters,
        records,
        directory,
        answer,
    );
}

// Replaces the text of one statement. The last six words of the answer say at entry how much of the memory is used, the
// script's latest date, and its edition, as an earlier call left them.
#[unsafe(no_mangle)]
pub extern "C" fn script_amend(
    script: &mut [u8],
    statement: u32,
    text: &[u8],
    reserved: &[u8],
    currencies: &[u8],
    day_counters: &[u8],
    records: &mut [u32],
    directory: &mut [u32],
    answer: &mut [u32; 10],
)
    ensures { Replaces (lists_in reserved.now currencies.now day_counters.now) (memory script.old records.old directory.old) answer.old statement text.now answer.new (memory script.new records.new directory.new) }
{
    archive::script_amend(
        script,
        statement,
        text,
        reserved,
        currencies,
        day_counters,
        records,
        directory,
        answer,
    );
}

// Says where the part is that a record names: of the script (0) or of the list of currencies (1), first byte, length.
#[unsafe(no_mangle)]
pub extern "C" fn script_part(
    script: &[u8],
    currencies: &[u8],
    record: &[u32; 8],
    start: u32,
    second: bool,
    place: &mut [u32; 3],
)
    ensures { place.new ≡ place_words (placed (part_named script.now currencies.now «record».now start second)) }
{
    archive::script_part(script, currencies, record, start, second, place);
}

// The count of a day, as records have it; 0 where there is no such day.
#[unsafe(no_mangle)]
pub extern "C" fn calendar_count(year: u32, month: u32, day: u32) -> u32
    ensures { result ≡ count_of (dated year month day) }
{
    archive::calendar_count(year, month, day)
}

// Says which day has a count: year, month, day, and 0, 0, 0 where none has it.
#[unsafe(no_mangle)]
pub extern "C" fn calendar_day(count: u32, day: &mut [u32; 3])
    ensures { day.new ≡ day_words (day_of count) }
{
    archive::calendar_day(count, day);
}

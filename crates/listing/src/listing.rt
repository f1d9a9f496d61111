// The listing of a script, with lists of its own.
ghost use Rattle.std.specs.Prelude.{◌+◌, ◌*◌, ◌≤◌, length};
ghost use Rattle.grammar.specs.Sizes.{record_width};
ghost use Rattle.listing.specs.Lines.{word_bytes, record_bytes, Appended};
ghost use Rattle.listing.specs.Listing.{accepted_lines, refused_line, listing, longest};

use crate::lines::{put_line, put_records};
use reading::reading::{Answer, read};
use reading::rooms::{ENTRY_WIDTH, MOST_RECORDS, MOST_STATEMENTS, RECORD_WIDTH};
use tokens::lists::Lists;

// Room for all records and statements that the capacities allow.
const RECORD_WORDS: usize = RECORD_WIDTH * MOST_RECORDS;

const DIRECTORY_WORDS: usize = ENTRY_WIDTH * MOST_STATEMENTS;

#[tactic(auto, unfolding(crate::specs::Listing::refused_line))]
fn list_refusal(a: Answer, out: &mut [u8]) -> usize
    requires { word_bytes * 4 ≤ length out.old }
    ensures { Appended out.old 0 (refused_line a) result out.new }
{
    let words = [
        u64::from(a.number),
        a.byte as u64,
        a.line as u64,
        a.column as u64,
    ];
    put_line(out, 0, &words)
}

#[tactic(auto, using(crate::proofs::LineLaws::put_two, crate::proofs::LineLaws::line_length), unfolding(crate::specs::Listing::accepted_lines))]
fn list_acceptance(a: Answer, records: &[u32], out: &mut [u8]) -> usize
    requires { (word_bytes * 3 + record_bytes * a.records ≤ length out.old) × (record_width * a.records ≤ length records.now) }
    ensures { Appended out.old 0 (accepted_lines a records.now) result out.new }
{
    let words = [a.statements as u64, a.records as u64, a.tokens as u64];
    let k = put_line(out, 0, &words);
    put_records(out, k, records, a.records)
}

// Puts the listing of a script at the start of `out`, and answers its length.
pub fn list(script: &[u8], out: &mut [u8]) -> usize
    requires { longest ≤ length out.old }
    ensures { Appended out.old 0 (listing script.now) result out.new }
{
    let mut records = [0u32; RECORD_WORDS];
    let mut directory = [0u32; DIRECTORY_WORDS];
    let lists = Lists {
        reserved: b"",
        currencies: b"USD\nEUR\n",
        counters: b"",
    };
    let a = read(script, 1, &lists, &mut records, &mut directory);
    if a.number == 0 {
        list_acceptance(a, &records, out)
    } else {
        list_refusal(a, out)
    }
}

// Lines of words. Each function puts text behind the first `at` bytes of `out`, and answers how many bytes there are then.
// The text stands in a lent buffer of a fixed size, and in no `String`: `put_line`, `put_records` and `list` cannot fail.
ghost use Rattle.std.specs.Prelude.{[], ◌∷◌, ◌≡◌, ◌+◌, ◌*◌, ◌≤◌, ◌<◌, length};
ghost use Rattle.grammar.specs.Sizes.{record_width};
ghost use Rattle.listing.specs.Lines.{word_bytes, record_bytes, hex_digit_ascii, word, gap_of, line, record_lines, Appended};

use reading::rooms::RECORD_WIDTH;
use std::array;

// The bytes of a word on its line, with what stands behind it.
pub const WORD_BYTES: usize = 9;

fn put(out: &mut [u8], at: usize, b: u8) -> usize
    requires { at < length out.old }
    ensures { Appended out.old at (b ∷ []) result out.new }
{
    out[at] = b;
    at + 1
}

fn digit(d: u64) -> u8
    requires { d < 16 }
    ensures { result ≡ hex_digit_ascii d }
{
    if d < 10 {
        b'0' + d as u8
    } else {
        b'a' - 10 + d as u8
    }
}

// The last eight hexadecimal digits of a number.
#[tactic(auto, using(crate::proofs::LineLaws::word_made))]
fn digits(w: u64) -> [u8; 8]
    ensures { result ≡ word w }
{
    array::from_fn(|i| digit((w >> (28 - 4 * i)) % 16))
}

fn put_word(out: &mut [u8], at: usize, w: u64) -> usize
    requires { at + 8 ≤ length out.old }
    ensures { Appended out.old at (word w) result out.new }
{
    out[at..at + 8].copy_from_slice(&digits(w));
    at + 8
}

// What stands behind a word, if so many words follow on its line.
fn gap(words: usize) -> u8
    ensures { result ≡ gap_of words }
{
    if words == 0 { b'\n' } else { b' ' }
}

pub fn put_line(out: &mut [u8], at: usize, words: &[u64]) -> usize
    requires { at + word_bytes * length words.now ≤ length out.old }
    ensures { Appended out.old at (line words.now) result out.new }
{
    let mut k = at;
    for (i, &w) in words.iter().enumerate() {
        k = put_word(out, k, w);
        k = put(out, k, gap(words.len() - i - 1));
    }
    k
}

// A line of the words of a record.
fn put_record(out: &mut [u8], at: usize, words: &[u32]) -> usize
    requires { (at + record_bytes ≤ length out.old) × (record_width ≡ length words.now) }
    ensures { Appended out.old at (line words.now) result out.new }
{
    let wide: [u64; RECORD_WIDTH] = array::from_fn(|i| u64::from(words[i]));
    put_line(out, at, &wide)
}

// A line for each of the first `count` records.
pub fn put_records(out: &mut [u8], at: usize, records: &[u32], count: usize) -> usize
    requires { (at + record_bytes * count ≤ length out.old) × (record_width * count ≤ length records.now) }
    ensures { Appended out.old at (record_lines count records.now) result out.new }
{
    let mut k = at;
    for record in records.chunks_exact(RECORD_WIDTH).take(count) {
        k = put_record(out, k, record);
    }
    k
}

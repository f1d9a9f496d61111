// Replays stored cases: reads the files that its arguments name, runs what each line of them asks, and compares.
// A `read` or an `amend` is run on the memory that its case lends: its answer must be the stored one, and every lent byte and
// word must be left as stored. A `part` is looked up: it must be found in the stored source, at the stored place, with the
// stored length, and what is handed back must have these bytes.
// Files behind the word `wrong:` have cases that are wrong on purpose. So what is written tells that each comparison can fail.
#![tactic(auto)]

mod calls;
mod case;
mod comparing;
mod fields;
mod kinds;
mod lookups;
mod memory;
mod replay;
mod report;
mod tally;
mod trouble;

ghost use Rattle.std.specs.Prelude.{◌≡◌, ◌≤◌, length};

use crate::replay::replay;
use crate::report::{say, say_tally, say_wrong};
use crate::tally::Tally;
use std::env::{Env, FillError};
use std::fs::File;
use std::io::Read;
use std::str;

// More than the longest file has, so that a file that fills it was cut.
const TEXT: usize = 524288;

// More than any path has.
const PATH: usize = 4096;

// A name that is not UTF-8 cannot be opened.
fn opened(rt: &HostRuntime, path: &[u8]) -> Option<File> {
    let name = str::from_utf8(path).ok()?;
    File::open(rt, name).ok()
}

// Fills `out` from its start, until it is full, the input ends or a read fails. Answers how many bytes came. It is a loop of
// reads into a buffer of a fixed size, since a `Vec`, as `read_to_end` fills it, needs memory that there may not be.
fn read_full<R: Read>(input: &mut R, out: &mut [u8]) -> usize
    ensures { result ≤ length out.new }
{
    let mut n: usize = 0;
    while n < out.len() {
        let Ok(more) = input.read(&mut out[n..]) else {
            return n;
        };
        if more == 0 {
            return n;
        }
        n += more;
    }
    n
}

// Zeros, for the text of a file. Only their number is known, so that no proof goes over them.
fn room() -> [u8; TEXT]
    ensures { 524288 ≡ length result }
{
    [0; TEXT]
}

fn replay_file(rt: &HostRuntime, path: &[u8], tally: &mut Tally) {
    let out = rt.stdout();
    let Some(mut file) = opened(rt, path) else {
        say(out, path);
        say(out, b": cannot be opened\n");
        return;
    };
    let mut text = room();
    let n = read_full(&mut file, &mut text);
    if n == TEXT {
        say(out, path);
        say(out, b": no room\n");
        return;
    }
    replay(out, path, &text[..n], tally);
}

// An argument, if there is one. Each is asked for by its place, since `env::args` has none where one is not UTF-8. One that is
// too long for a path is none of a file that can be opened.
fn argument<'a>(rt: &HostRuntime, i: usize, path: &'a mut [u8]) -> Option<&'a [u8]> {
    match rt.arg(i, path) {
        Ok(n) => Some(&path[..n]),
        Err(FillError::TooLong) => Some(&[]),
        Err(FillError::NotPresent) => None,
    }
}

// Replays the files that the arguments name, up to the word `wrong:`. Answers where the arguments go on.
fn replay_arguments(rt: &HostRuntime, first: usize, tally: &mut Tally) -> usize {
    let mut path = [0u8; PATH];
    for i in first..usize::MAX {
        let Some(name) = argument(rt, i, &mut path) else {
            return i;
        };
        if name == b"wrong:".as_slice() {
            return i + 1;
        }
        replay_file(rt, name, tally);
    }
    usize::MAX
}

fn main(rt: HostRuntime) {
    let out = rt.stdout();
    let mut tally = Tally::new();
    let behind = replay_arguments(&rt, 1, &mut tally);
    say_tally(out, &tally);
    let mut wrong = Tally::new();
    replay_arguments(&rt, behind, &mut wrong);
    say_wrong(out, &wrong);
}

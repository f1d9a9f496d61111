// Lists what a script is read as. With no argument it lists standard input; with arguments it lists one file after the other,
// and `-` stands for standard input. It ends with the exit status 0: what fails is told on standard error.
#![tactic(auto)]

mod lines;
mod listing;

ghost use Rattle.std.specs.Prelude.{◌≡◌, ◌≤◌, length, take, IfOk, IfSome, OnOk};
ghost use Rattle.std.specs.Io.{StartsWith};
ghost use Rattle.std.specs.Io.KnownBytes.{Appends};
ghost use Rattle.listing.specs.Listing.{listing, longest};
ghost use Rattle.listing.specs.Inputs.{Within, Takes, ListsInput};

use crate::lines::WORD_BYTES;
use crate::listing::list;
use reading::rooms::{MOST_RECORDS, RECORD_WIDTH};
use std::env::{Env, FillError};
use std::fmt::{Display, InlineText};
use std::fs::File;
use std::io::{Read, Write};
use std::{io, str};

// One byte more than a script may have: enough to tell that it is too long.
const SCRIPT_ROOM: usize = 16385;

// The longest listing: a line of three words, and one for each record that there may be.
const TEXT_ROOM: usize = WORD_BYTES * (3 + RECORD_WIDTH * MOST_RECORDS);

// More than any path has.
const PATH_ROOM: usize = 4096;

// More than any reason has.
const REASON_ROOM: usize = 512;

// How many bytes of an input came, and how many its listing has.
#[derive(Clone, Copy)]
struct Listed {
    came: usize,
    lines: usize,
}

// Fills `out` from its start, up to the end of the input. A read may bring less than there is. It is a loop of reads, since
// `read_to_end` on what `take` makes of the input does not say what is left of it, as the clause `taken` does.
fn take_input<R: Read>(input: &mut R, out: &mut [u8]) -> io::Result<usize>
    ensures within { Within result out.new }
    ensures taken { IfOk result (λ n. Takes (R.remaining input.old) (R.remaining input.new) n out.new) }
{
    let mut n: usize = 0;
    while n < out.len() {
        let more = input.read(&mut out[n..])?;
        if more == 0 {
            return Ok(n);
        }
        n += more;
    }
    Ok(n)
}

// Takes an input into `script`, and puts its listing at the start of `text`.
fn list_input<R: Read>(input: &mut R, script: &mut [u8], text: &mut [u8]) -> io::Result<Listed>
    requires { (length script.old ≡ 16385) × (longest ≤ length text.old) }
    ensures lists { ListsInput result script.new text.new }
    ensures known { IfOk result (λ l. IfSome (R.remaining input.old) (λ bs. take l.lines text.new ≡ listing bs)) }
{
    let came = take_input(input, script)?;
    let lines = list(&script[..came], text);
    Ok(Listed { came, lines })
}

// Why an input was not listed: a read of it failed, or the write of its listing.
#[derive(Drop)]
enum Failed {
    Read(io::Error),
    Write(io::Error),
}

// Writes the listing of an input.
fn write_listing<R: Read, W: Write>(input: &mut R, output: &mut W) -> Result<(), Failed>
    ensures { OnOk result (IfSome (R.remaining input.old) (λ bs. Appends (W.contents output.old) (W.contents output.new) (listing bs))) }
{
    let mut script = [0u8; SCRIPT_ROOM];
    // A buffer of a fixed size, and no `String`: `list` cannot fail, as it would where memory for one is wanting.
    let mut text = [0u8; TEXT_ROOM];
    let listed = list_input(input, &mut script, &mut text).map_err(Failed::Read)?;
    output
        .write_all(&text[..listed.lines])
        .map_err(Failed::Write)
}

// A reason without the end ` (os error N)`, since std adds that to what the C library says.
fn words(reason: &str) -> &str
    ensures { StartsWith reason.now result.now }
{
    match reason.rsplit_once(" (os error ") {
        Some((words, number)) if number.ends_with(')') => words,
        _ => reason,
    }
}

// Writes a line to standard error: what failed, and why. If that fails too, there is nowhere to tell it.
fn fail<D: Display + Drop>(rt: &HostRuntime, what: &[u8], why: D) {
    let err = rt.stderr();
    let _ = Print::write_all(&err, what);
    let _ = Print::write_all(&err, b": ");
    let _ = err.println(words(InlineText::<REASON_ROOM>::of(why).as_str()));
}

// Lists an input on standard output.
fn list_named<R: Read>(rt: &HostRuntime, input: &mut R, name: &[u8]) {
    match write_listing(input, &mut rt.stdout()) {
        Ok(()) => {}
        Err(Failed::Read(error)) => fail(rt, name, error),
        Err(Failed::Write(error)) => fail(rt, b"standard output", error),
    }
}

fn list_standard_input(rt: &HostRuntime) {
    list_named(rt, &mut rt.stdin(), b"standard input");
}

fn list_file(rt: &HostRuntime, path: &[u8]) {
    if path == b"-".as_slice() {
        list_standard_input(rt);
        return;
    }
    let Ok(name) = str::from_utf8(path) else {
        fail(rt, path, "the name is not UTF-8");
        return;
    };
    match File::open(rt, name) {
        Ok(mut file) => list_named(rt, &mut file, path),
        Err(error) => fail(rt, path, error),
    }
}

// Lists the file that an argument names. Answers whether there is such an argument.
fn list_argument(rt: &HostRuntime, i: usize) -> bool {
    let mut path = [0u8; PATH_ROOM];
    match rt.arg(i, &mut path) {
        Ok(n) => list_file(rt, &path[..n]),
        Err(FillError::TooLong) => fail(rt, b"argument", "File name too long"),
        Err(FillError::NotPresent) => return false,
    }
    true
}

fn main(rt: HostRuntime) {
    if !list_argument(&rt, 1) {
        list_standard_input(&rt);
        return;
    }
    for i in 2..usize::MAX {
        if !list_argument(&rt, i) {
            return;
        }
    }
}

// What the program writes. What fails to be written is passed over, so that a run whose output is closed still ends.
use crate::tally::Tally;
use crate::trouble::Trouble;
use reading::parts::Place;
use reading::reading::Answer;
use std::io::Stdout;

pub fn say(out: Stdout, text: &[u8]) {
    let _ = out.write_all(text);
}

// What a call gave that differs. `say_trouble` goes on with the file, the case and the line, which has the stored answer.
pub fn say_answer(out: Stdout, a: Answer) {
    let _ = print!(out;
        "given {} {} {} {} bytes {} statements {} records {} tokens {} latest {} edition {} for ",
        a.number,
        a.byte,
        a.line,
        a.column,
        a.bytes,
        a.statements,
        a.records,
        a.tokens,
        a.latest,
        a.edition
    );
}

fn say_bytes(out: Stdout, bytes: &[u8]) {
    for b in bytes {
        let _ = print!(out; "{b:02x}");
    }
}

// Where a lookup found a part, if not at the stored place: its source, place and length.
pub fn say_place(out: Stdout, p: Place) {
    let source = if p.in_list { 'c' } else { 's' };
    let _ = print!(out; "found {source} {} {} for ", p.from, p.size);
}

// A part that a lookup handed back and that differs.
pub fn say_part(out: Stdout, part: &[u8]) {
    let _ = print!(out; "given {} bytes ", part.len());
    say_bytes(out, part);
    say(out, b" for ");
}

// The bytes that a call left and that differ.
pub fn say_left(out: Stdout, bytes: &[u8]) {
    say(out, b"left ");
    say_bytes(out, bytes);
    say(out, b" for ");
}

// A word that a call left and that differs, and where it stands, from 0.
pub fn say_word(out: Stdout, at: usize, word: u32) {
    let _ = print!(out; "left {word:x} at word {at} for ");
}

// Tells of a line that differs or was not taken: the file, the case's text and the line.
pub fn say_trouble(out: Stdout, path: &[u8], case: &[u8], line: &[u8], trouble: Trouble) {
    say(out, path);
    say(out, b": ");
    say(out, case);
    let _ = print!(out; ": {trouble}: ");
    say(out, line);
    say(out, b"\n");
}

// The counts of a whole run.
pub fn say_tally(out: Stdout, tally: &Tally) {
    for (number, ground) in tally.grounds.iter().enumerate() {
        let ran = ground.ran;
        let differ = ground.differ;
        if ran != 0 {
            let _ = println!(out; "ground {number}: {ran} cases, {differ} differ");
        }
    }
    let _ = println!(out; "cases: {}", tally.cases);
    let _ = println!(out; "reads: {}", tally.reads);
    let _ = println!(out; "amends: {}", tally.amends);
    let _ = println!(out; "parts: {}", tally.parts);
    let _ = println!(out; "lines of memory compared: {}", tally.compared);
    let _ = println!(out; "differences: {}", tally.differences);
    let _ = println!(out; "lines not taken: {}", tally.refused);
}

// The counts of the cases that are wrong on purpose: each must differ.
pub fn say_wrong(out: Stdout, tally: &Tally) {
    let _ = println!(out; "cases wrong on purpose: {}", tally.cases);
    let _ = println!(out; "differences of these: {}", tally.differences);
    let _ = println!(out; "lines of these not taken: {}", tally.refused);
}

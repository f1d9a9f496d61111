// Whether a script can be read, and what its reading holds. Nothing is written.
ghost use Rattle.std.specs.Prelude.{◌≡◌, ◌≤◌, length};
ghost use Rattle.tokens.specs.LentLists.{lists_of};
ghost use Rattle.grammar.specs.Script.{no_zero};
ghost use Rattle.reading.specs.Meets.{edition_by};
ghost use Rattle.reading.specs.Editions.{edition_of};
ghost use Rattle.reading.specs.Judging.{judged, judgement, text_judgement};

use crate::editions::Edition;
use crate::language::Language;
use crate::scripts::all;
use tokens::lists::Lists;
use tokens::refusals::{Ground, Refusal};
use tokens::scanning::scan;
use tokens::text::{find, script_end};

// What a reading holds: bytes, statements, records, tokens, and where its last token ends.
#[derive(Clone, Copy)]
pub struct Counts {
    pub bytes: usize,
    pub statements: usize,
    pub records: usize,
    pub tokens: usize,
    pub last: usize,
}

// Judges a script of an edition: 1 to 15 in their order.
pub fn judge(script: &[u8], edition: Edition, lists: &Lists) -> Result<Counts, Refusal>
    ensures { judged result ≡ judgement (edition_of edition) (lists_of lists.now) script.now }
{
    let n = script_end(script)?;
    if !lists.are_well_formed() {
        return Err(Refusal {
            cause: Ground::List,
            byte: 0,
        });
    }
    let language = Language {
        two: edition.is_second(),
        lists: *lists,
    };
    judge_text(&script[..n], &language)
}

// Whether a text has no zero byte, however long it is.
pub fn is_clear(text: &[u8]) -> bool
    ensures { result ≡ no_zero text.now }
{
    find(text, 0, 0) == text.len()
}

// Judges the text of a script, with lists that are well formed. The reader is lent too little for a record or an entry.
fn judge_text(s: &[u8], language: &Language) -> Result<Counts, Refusal>
    requires { (length s.now ≤ 16384) }
    ensures { judged result ≡ text_judgement (edition_by language.now.two) (lists_of language.now.lists) s.now }
{
    let scanned = scan(s)?;
    let read = all(s, language, &mut [0; 1], &mut [0; 1])?;
    Ok(Counts {
        bytes: s.len(),
        statements: read.statements as usize,
        records: read.records as usize,
        tokens: scanned.tokens,
        last: scanned.last,
    })
}

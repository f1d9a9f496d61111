// A whole script, statement by statement.
ghost use Rattle.std.specs.Prelude.{◌≡◌, ◌≤◌};
ghost use Rattle.grammar.specs.Script.{statements};
ghost use Rattle.reading.specs.Meets.{language_of, toks_at};
ghost use Rattle.reading.specs.Scripts.{Clean, rebase, MeetsAll};

use crate::answers::All;
use crate::language::Language;
use crate::latest::latest_of;
use crate::records::{Entry, put_entry};
use crate::statements::statement;
use tokens::codes::EOF;
use tokens::cursor::Cursor;
use tokens::refusals::Refusal;

// The same token, with places from its own first byte, where a statement begins.
fn rebased(c: Cursor) -> Cursor
    requires { c.start ≤ c.end }
    ensures { result ≡ rebase c }
{
    Cursor {
        start: 0,
        end: c.end - c.start,
        taken: 0,
        last: 0,
        code: c.code,
        broken: false,
    }
}

// The statements of a script that has been scanned: their records, and their entries in the directory. Each is read from
// its own part of the script, so that its places are bytes from its first.
pub fn all(
    s: &[u8],
    language: &Language,
    records: &mut [u32],
    directory: &mut [u32],
) -> Result<All, Refusal>
    requires { Clean s.now }
    ensures { MeetsAll (statements (language_of language.now) (toks_at s.now 0)) records.old directory.old result records.new directory.new }
{
    let mut base: usize = 0;
    let mut at = Cursor::start(s);
    let mut n: u32 = 0;
    let mut k: u32 = 0;
    let mut latest: u32 = 0;
    // Each answer says where the next reader begins, so no range gives the places.
    while at.code != EOF {
        base += at.start as usize;
        let c = rebased(at);
        let read = statement(&s[base..], language, c, Cursor::DEPTH, records, n);
        let r = read.map_err(|fault| fault.in_script(base))?;
        let own = latest_of(records, n, r.records);
        put_entry(
            directory,
            k,
            Entry {
                start: base as u32,
                end: (base + r.at.last as usize) as u32,
                records: r.records - n,
                tokens: r.at.taken as u32,
                latest: own,
            },
        );
        latest = latest.max(own);
        at = r.at;
        n = r.records;
        k += 1;
    }
    Ok(All {
        statements: k,
        records: n,
        latest,
    })
}

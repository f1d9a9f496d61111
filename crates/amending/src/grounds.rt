// On what grounds an amendment is refused: 26, 20, 17, 19, then the new text read alone (1 to 15), 18, 16 over the totals.
ghost use Rattle.std.specs.Prelude.{◌≡◌, ◌≤◌, length};
ghost use Rattle.tokens.specs.LentLists.{lists_of};
ghost use Rattle.amending.specs.Memory.{as_memory, as_rooms};
ghost use Rattle.amending.specs.Grounds.{ends_whole, ends_shut, Ends, Stands, Few, alone, totals, fitting_by, MeetsGround, MeetsVerdict};
ghost use Rattle.amending.specs.Verdict.{as_verdict, as_fitting};

use crate::held::Held;
use crate::memory::Memory;
use crate::orders::in_order;
use crate::rooms::Rooms;
use crate::rows::Row;
use reading::editions::Edition;
use reading::judging::{Counts, is_clear, judge};
use tokens::lists::Lists;
use tokens::refusals::{Ground, Refusal};

// What the new text holds, and what is used with it in place, but for the latest date, which its entries tell once they are
// there.
#[derive(Clone, Copy)]
pub struct Fit {
    pub counts: Counts,
    pub whole: Held,
}

// The edition that is held, and the entry that is replaced.
#[derive(Clone, Copy)]
struct Chosen {
    edition: Edition,
    row: Row,
}

pub fn verdict_on(
    memory: &Memory<'_>,
    held: Held,
    statement: usize,
    text: &[u8],
    lists: &Lists<'_>,
) -> Result<Fit, Refusal>
    ensures { MeetsVerdict (lists_of lists.now) (as_memory memory.now) held statement text.now (as_verdict result) }
{
    let chosen = admitted(memory, held, statement, text).map_err(|cause| Refusal {
        cause,
        byte: 0,
    })?;
    let counts = judge(text, chosen.edition, lists)?;
    let whole = fitting(memory.rooms(), held, chosen.row, text, counts).map_err(|cause| Refusal {
        cause,
        byte: counts.bytes,
    })?;
    Ok(Fit { counts, whole })
}

// What the new text is read in, and what it replaces; or 26, 20, 17 or 19, all of which lie at byte 0.
#[tactic(auto, using(crate::proofs::Editions::is_edition_lem, crate::proofs::GroundLaws::refused_edition, crate::proofs::GroundLaws::refused_room, crate::proofs::GroundLaws::refused_order, crate::proofs::GroundLaws::refused_number, crate::proofs::GroundLaws::refused_zero))]
fn admitted(
    memory: &Memory<'_>,
    held: Held,
    statement: usize,
    text: &[u8],
) -> Result<Chosen, Ground>
    ensures { MeetsGround (as_memory memory.now) held statement text.now result }
{
    let edition = Edition::try_from(held.edition)?;
    if !memory.rooms().hold(&held) || !in_order(memory.directory, &held) {
        return Err(Ground::Directory);
    }
    if held.statements <= statement {
        return Err(Ground::Statement);
    }
    if !is_clear(text) {
        return Err(Ground::ZeroByte);
    }
    Ok(Chosen {
        edition,
        row: Row::at(memory.directory, statement),
    })
}

// What is used where a text that can be read takes the place of an entry; or 18 or 16. The text alone is tested first, so that
// no total can wrap.
#[tactic(auto, using(crate::proofs::GroundLaws::few_capped), unfolding(crate::specs::Grounds::fitting_by))]
fn fitting(rooms: Rooms, held: Held, row: Row, text: &[u8], c: Counts) -> Result<Held, Ground>
    requires stands { Stands held row }
    requires ends { Ends text.now c }
    ensures { as_fitting c result ≡ fitting_by (as_rooms rooms) held row text.now c }
{
    if !is_whole(text, c.last) || !is_shut(text, c.last, c.tokens) {
        return Err(Ground::Ending);
    }
    if !rooms.hold(&alone(c)) {
        return Err(Ground::Room);
    }
    let whole = totals(held, row, c);
    if !rooms.hold(&whole) {
        return Err(Ground::Room);
    }
    Ok(whole)
}

// What is used of memory that holds the new text alone.
fn alone(c: Counts) -> Held
    ensures { result ≡ alone c }
{
    Held {
        bytes: c.bytes,
        statements: c.statements,
        records: c.records,
        tokens: c.tokens,
        latest: 0,
        edition: 0,
    }
}

// 18, of a text whose last token ends at a byte: it is empty, or ends in a line feed, or in that token's last byte.
fn is_whole(text: &[u8], last: usize) -> bool
    ensures { result ≡ ends_whole text.now last }
{
    matches!(text, [] | [.., b'\n']) || last == text.len()
}

// And that token, if there is one, is `;` or `}`: no other token ends in such a byte.
fn is_shut(text: &[u8], last: usize, tokens: usize) -> bool
    requires { (last ≤ length text.now) × ((tokens ≡ 0 → ⊥) → 1 ≤ last) }
    ensures { result ≡ ends_shut text.now last tokens }
{
    tokens == 0 || text[last - 1] == b';' || text[last - 1] == b'}'
}

// What is used with the new text in place of an entry.
fn totals(held: Held, row: Row, c: Counts) -> Held
    requires stands { Stands held row }
    requires few { Few c }
    ensures { result ≡ totals held row c }
{
    Held {
        bytes: held.bytes - (row.end - row.start) + c.bytes,
        statements: held.statements - 1 + c.statements,
        records: held.records - row.records + c.records,
        tokens: held.tokens - row.tokens + c.tokens,
        latest: 0,
        edition: held.edition,
    }
}

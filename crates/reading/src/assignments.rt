// Statements that are one expression: what a name begins, pays, and expressions by themselves.
ghost use Rattle.std.specs.Prelude.{◌≡◌, [], ◌≤◌};
ghost use Rattle.grammar.specs.Grammar.{named};
ghost use Rattle.reading.specs.Meets.{words_in, language_of, toks_at, token_at, Ready, Follows, Meets};
ghost use Rattle.reading.specs.Bodies.{ended_at, paid_at, assign_at, compound_at, assign_paid_at, begun_at, sign_behind, MeetsTwice};

use crate::answers::{Fault, Read};
use crate::atoms::{named_node, next, take, variable_at};
use crate::expressions::{expression, pays};
use crate::language::Language;
use crate::records::{Kind, plain, put};
use tokens::codes::{
    ASSIGN, DIVIDE_ASSIGN, MINUS_ASSIGN, MULTIPLY_ASSIGN, NEWLINE, PAYS, PLUS_ASSIGN, SEMICOLON,
};
use tokens::cursor::Cursor;

// An expression and its `;`.
#[tactic(auto, using(crate::proofs::AssignLaws::ended_refused, crate::proofs::AssignLaws::ended_open, crate::proofs::AssignLaws::ended_closed))]
pub fn ended(
    s: &[u8],
    language: &Language,
    c: Cursor,
    depth: u32,
    out: &mut [u32],
    n: u32,
) -> Result<Read, Fault>
    requires { Ready s.now c n }
    ensures { Meets s.now (ended_at (language_of language.now) depth (toks_at s.now c.start)) n out.old result out.new }
{
    let r = expression(s, language, false, c, depth, out, n)?;
    let at = take(s, r.at, SEMICOLON)?;
    Ok(Read { at, ..r })
}

// A pays, whose word stands at c, and its `;`, which is optional.
#[tactic(auto, using(crate::proofs::AssignLaws::paid_refused, crate::proofs::AssignLaws::paid_bare, crate::proofs::AssignLaws::paid_closed))]
pub fn paid(
    s: &[u8],
    language: &Language,
    c: Cursor,
    depth: u32,
    out: &mut [u32],
    n: u32,
) -> Result<Read, Fault>
    requires { Ready s.now c n × (c.code ≡ 36) }
    ensures { Meets s.now (paid_at (language_of language.now) depth (toks_at s.now c.start)) n out.old result out.new }
{
    let d = next(s, c);
    let r = pays(s, language, c, d, depth, out, n)?;
    if r.at.code != SEMICOLON {
        return Ok(r);
    }
    Ok(Read {
        at: next(s, r.at),
        ..r
    })
}

// `x = e;`: the name stands at c, and the sign at d.
fn assign(
    s: &[u8],
    language: &Language,
    c: Cursor,
    d: Cursor,
    depth: u32,
    out: &mut [u32],
    n: u32,
) -> Result<Read, Fault>
    requires { Ready s.now c n × Follows s.now c d × (c.code ≡ 1) × (d.code ≡ 37) }
    ensures { Meets s.now (assign_at (language_of language.now) depth (toks_at s.now c.start)) n out.old result out.new }
{
    let v = variable_at(s, language.lists.reserved, c, d, out, n)?;
    let r = ended(s, language, next(s, d), depth, out, v.records)?;
    let k = r.records;
    put(out, k, plain(Kind::Assign as u32, k - n + 1, 2, c.start));
    Ok(Read {
        at: r.at,
        records: k + 1,
        string: None,
    })
}

// The variable at c, written twice; d stands behind it.
#[tactic(auto, using(crate::proofs::AssignLaws::named_one, crate::proofs::AssignLaws::twice_reads))]
fn doubled(
    s: &[u8],
    reserved: &[u8],
    c: Cursor,
    d: Cursor,
    out: &mut [u32],
    n: u32,
) -> Result<Read, Fault>
    requires { Ready s.now c n × Follows s.now c d × (c.code ≡ 1) }
    ensures { MeetsTwice s.now (named (words_in reserved.now [] []) (token_at s.now c) (toks_at s.now d.start)) n out.old result out.new }
{
    let v = variable_at(s, reserved, c, d, out, n)?;
    let m = v.records;
    put(out, m, named_node(Kind::Variable, c, 1, 0, c.start));
    Ok(Read {
        at: v.at,
        records: m + 1,
        string: None,
    })
}

// `x += e;` and its like: the name stands at c, and the sign at d.
fn compound(
    s: &[u8],
    language: &Language,
    c: Cursor,
    d: Cursor,
    depth: u32,
    out: &mut [u32],
    n: u32,
) -> Result<Read, Fault>
    requires { Ready s.now c n × Follows s.now c d × (c.code ≡ 1) × (28 ≤ d.code) × (d.code ≤ 31) }
    ensures { Meets s.now (compound_at (language_of language.now) depth (toks_at s.now c.start)) n out.old result out.new }
{
    let v = doubled(s, language.lists.reserved, c, d, out, n)?;
    let r = ended(s, language, next(s, d), depth, out, v.records)?;
    let k = r.records;
    put(out, k, plain((d.code - 20) as u32, k - n, 2, c.start));
    put(
        out,
        k + 1,
        plain(Kind::Assign as u32, k - n + 2, 2, c.start),
    );
    Ok(Read {
        at: r.at,
        records: k + 2,
        string: None,
    })
}

// `x pays ..`: the name stands at c, and the word at d.
fn assign_paid(
    s: &[u8],
    language: &Language,
    c: Cursor,
    d: Cursor,
    depth: u32,
    out: &mut [u32],
    n: u32,
) -> Result<Read, Fault>
    requires { Ready s.now c n × Follows s.now c d × (c.code ≡ 1) × (d.code ≡ 36) }
    ensures { Meets s.now (assign_paid_at (language_of language.now) depth (toks_at s.now c.start)) n out.old result out.new }
{
    let v = doubled(s, language.lists.reserved, c, d, out, n)?;
    let r = paid(s, language, d, depth, out, v.records)?;
    let k = r.records;
    put(out, k, plain(Kind::Add as u32, k - n, 2, c.start));
    put(
        out,
        k + 1,
        plain(Kind::Assign as u32, k - n + 2, 2, c.start),
    );
    Ok(Read {
        at: r.at,
        records: k + 2,
        string: None,
    })
}

// The sign that decides of a statement that a name begins, behind which d stands: none behind a line break, which no longer
// matters in the second edition.
fn sign_behind(two: bool, d: Cursor) -> u8
    ensures { result ≡ sign_behind two d }
{
    if !two && d.broken { NEWLINE } else { d.code }
}

// A statement that a name begins, which stands at c.
pub fn begun(
    s: &[u8],
    language: &Language,
    c: Cursor,
    depth: u32,
    out: &mut [u32],
    n: u32,
) -> Result<Read, Fault>
    requires { Ready s.now c n × (c.code ≡ 1) }
    ensures { Meets s.now (begun_at (language_of language.now) depth (toks_at s.now c.start)) n out.old result out.new }
{
    let d = next(s, c);
    match sign_behind(language.two, d) {
        ASSIGN => assign(s, language, c, d, depth, out, n),
        PLUS_ASSIGN | MINUS_ASSIGN | MULTIPLY_ASSIGN | DIVIDE_ASSIGN => {
            compound(s, language, c, d, depth, out, n)
        }
        PAYS => assign_paid(s, language, c, d, depth, out, n),
        _ => ended(s, language, c, depth, out, n),
    }
}

// Statements and the blocks that hold them, with the depth that is left as the falling number.
ghost use Rattle.std.specs.Prelude.{◌≡◌};
ghost use Rattle.grammar.specs.Grammar.{block, statement};
ghost use Rattle.reading.specs.Meets.{language_of, toks_at, token_at, Ready, Meets};
ghost use Rattle.reading.specs.Bodies.{conditional_in, repetition_in, MeetsBlock};

use crate::answers::{Block, Fault, Read};
use crate::assignments::{begun, ended, paid};
use crate::atoms::{named_node, next, take};
use crate::bodies::{branch, loop_head};
use crate::expressions::expression;
use crate::language::Language;
use crate::records::{Kind, put};
use tokens::codes::{CLOSE_CURLY, ELSE, FOR, IF, NAME, OPEN_CURLY, PAYS};
use tokens::cursor::Cursor;
use tokens::refusals::Ground;

// A statement.
#[cycle(statements)]
pub fn statement(
    s: &[u8],
    language: &Language,
    c: Cursor,
    depth: u32,
    out: &mut [u32],
    n: u32,
) -> Result<Read, Fault>
    requires { Ready s.now c n }
    ensures { Meets s.now (statement (language_of language.now) depth (toks_at s.now c.start)) n out.old result out.new }
{
    match c.code {
        NAME => begun(s, language, c, depth, out, n),
        IF => conditional(s, language, c, depth, out, n),
        FOR => repetition(s, language, c, depth, out, n),
        PAYS => paid(s, language, c, depth, out, n),
        _ => ended(s, language, c, depth, out, n),
    }
}

// `if e { .. }` with optional `else { .. }`, whose word stands at c.
#[cycle(statements)]
fn conditional(
    s: &[u8],
    language: &Language,
    c: Cursor,
    depth: u32,
    out: &mut [u32],
    n: u32,
) -> Result<Read, Fault>
    requires { Ready s.now c n × (c.code ≡ 38) }
    ensures { Meets s.now (conditional_in (language_of language.now) depth (token_at s.now c) (toks_at s.now c.start)) n out.old result out.new }
{
    let d = next(s, c);
    if depth == 0 {
        return Err(Fault::at(c, Ground::Depth));
    }
    let r = expression(s, language, false, d, depth - 1, out, n)?;
    let body = block(s, language, r.at, depth - 1, out, r.records)?;
    let k = body.records;
    if body.at.code != ELSE {
        put(out, k, branch(c.start, k - n + 1, body.count + 1, 0));
        return Ok(Read {
            at: body.at,
            records: k + 1,
            string: None,
        });
    }
    let other = block(s, language, next(s, body.at), depth - 1, out, k)?;
    let j = other.records;
    let parts = body.count + other.count + 1;
    put(out, j, branch(c.start, j - n + 1, parts, body.count + 1));
    Ok(Read {
        at: other.at,
        records: j + 1,
        string: None,
    })
}

// `for v in e { .. }`, whose word stands at c.
#[cycle(statements)]
fn repetition(
    s: &[u8],
    language: &Language,
    c: Cursor,
    depth: u32,
    out: &mut [u32],
    n: u32,
) -> Result<Read, Fault>
    requires { Ready s.now c n × (c.code ≡ 39) }
    ensures { Meets s.now (repetition_in (language_of language.now) depth (token_at s.now c) (toks_at s.now c.start)) n out.old result out.new }
{
    let d = next(s, c);
    if depth == 0 {
        return Err(Fault::at(c, Ground::Depth));
    }
    let e = loop_head(s, language.lists.reserved, d)?;
    let r = expression(s, language, false, e, depth - 1, out, n)?;
    let body = block(s, language, r.at, depth - 1, out, r.records)?;
    let k = body.records;
    put(
        out,
        k,
        named_node(Kind::ForEach, d, k - n + 1, body.count + 1, c.start),
    );
    Ok(Read {
        at: body.at,
        records: k + 1,
        string: None,
    })
}

// `{ .. }`: statements up to the closing sign.
#[cycle(statements)]
fn block(
    s: &[u8],
    language: &Language,
    c: Cursor,
    depth: u32,
    out: &mut [u32],
    n: u32,
) -> Result<Block, Fault>
    requires { Ready s.now c n }
    ensures { MeetsBlock s.now (block (statement (language_of language.now) depth) (toks_at s.now c.start)) n out.old result out.new }
{
    let mut at = take(s, c, OPEN_CURLY)?;
    let mut m = n;
    let mut count: u32 = 0;
    // Each answer says where the next reader begins, so no range gives the places.
    while at.code != CLOSE_CURLY {
        let r = statement(s, language, at, depth, out, m)?;
        at = r.at;
        m = r.records;
        count += 1;
    }
    Ok(Block {
        at: next(s, at),
        records: m,
        count,
    })
}

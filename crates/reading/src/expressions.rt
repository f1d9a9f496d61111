// Expressions: one reader for each rule. They call each other through parentheses, lists, arguments and index, with the
// depth that is left as the falling number.
// In each loop an answer says where the next reader begins, so no range gives the places.
// Why cursor, words and count go apart stands above `atoms::next` and at `records::put`. The text is not in `Language`, which
// is one for a script: each statement is read from a part of its own, and many readers want the text alone.
ghost use Rattle.std.specs.Prelude.{◌≡◌, true, List, ℕ, ◌<◌};
ghost use Rattle.grammar.specs.Trees.{Tree};
ghost use Rattle.grammar.specs.Grammar.{calls, call_of, primary};
ghost use Rattle.reading.specs.Calls.{call_kind};
ghost use Rattle.reading.specs.Rows.{kind_number};
ghost use Rattle.reading.specs.Meets.{language_of, toks_at, token_at, Holds, Ready, Follows, Meets};
ghost use Rattle.reading.specs.Signs.{postfix_sign};
ghost use Rattle.reading.specs.Turns.{expression_or, comparison_or, sum_or, product_or, power_at, signed_at, minus_at, parenthesised, list_postfixed, pays_at, name_at, call_at, arguments_at, items_at, postfixes_at, postfix_turn_at, method_at, index_at, Closing, Closed, MeetsItems, Tops, MeetsTurns};

use crate::answers::{Fault, Items, Read, Texts};
use crate::atoms::{atom_at, constant_at, lone_at, next, take, variable_at};
use crate::calling::{call_fault, follow, negative, payday_at, shown, special, stops_pays};
use crate::calls::{call_of, method_of};
use crate::language::Language;
use crate::powers::step;
use crate::records::{Kind, join, plain, put};
use crate::signs::{
    is_comparator, is_looser, is_postfix, is_power, is_product, is_raised, is_sum, is_tighter,
};
use tokens::codes::{
    CLOSE_BRACKET, CLOSE_PAREN, DOT, MINUS, NAME, OPEN_BRACKET, OPEN_PAREN, PAYS, PLUS,
};
use tokens::cursor::Cursor;
use tokens::refusals::Ground;

// Comparisons joined by `and` and `or`, left to right. Where `and` binds tighter, the operands of `or` are chains of their own:
// the records of the one that is read begin at `from`, and its text at `place`. It is also how a power alone is read, without
// the levels above it: a function of its own would need stack for itself at each depth.
#[cycle(expressions)]
pub fn expression(
    s: &[u8],
    language: &Language,
    alone: bool,
    c: Cursor,
    depth: u32,
    out: &mut [u32],
    n: u32,
) -> Result<Read, Fault>
    requires { Ready s.now c n }
    ensures { Meets s.now (expression_or alone (language_of language.now) depth (toks_at s.now c.start)) n out.old result out.new }
{
    let mut at = c;
    let mut m = n;
    let mut sign = None;
    let mut tight = None;
    let mut from = n;
    let mut place = c.start;
    loop {
        let r = comparison(s, language, alone, at, depth, out, m)?;
        let i = join(out, tight, from, r.records, r.string, place);
        let code = r.at.code;
        if is_tighter(language.two, alone, code) {
            at = next(s, r.at);
            m = i.records;
            tight = Some(code);
            continue;
        }
        let j = join(out, sign, n, i.records, i.string, c.start);
        if !is_looser(language.two, alone, code) {
            return Ok(Read {
                at: r.at,
                records: j.records,
                string: j.string,
            });
        }
        at = next(s, r.at);
        m = j.records;
        sign = Some(code);
        tight = None;
        from = m;
        place = at.start;
    }
}

// A comparison has at most one comparator between sums.
#[cycle(expressions)]
fn comparison(
    s: &[u8],
    language: &Language,
    alone: bool,
    c: Cursor,
    depth: u32,
    out: &mut [u32],
    n: u32,
) -> Result<Read, Fault>
    requires { Ready s.now c n }
    ensures { Meets s.now (comparison_or alone (language_of language.now) depth (toks_at s.now c.start)) n out.old result out.new }
{
    let mut at = c;
    let mut m = n;
    let mut sign = None;
    loop {
        let r = sum(s, language, alone, at, depth, out, m)?;
        let j = join(out, sign, n, r.records, r.string, c.start);
        if sign.is_some() {
            return Ok(Read {
                at: r.at,
                records: j.records,
                string: j.string,
            });
        }
        let code = r.at.code;
        if !is_comparator(alone, code) {
            return Ok(Read {
                at: r.at,
                records: j.records,
                string: j.string,
            });
        }
        at = next(s, r.at);
        m = j.records;
        sign = Some(code);
    }
}

// Products joined by `+` and `-`.
#[cycle(expressions)]
fn sum(
    s: &[u8],
    language: &Language,
    alone: bool,
    c: Cursor,
    depth: u32,
    out: &mut [u32],
    n: u32,
) -> Result<Read, Fault>
    requires { Ready s.now c n }
    ensures { Meets s.now (sum_or alone (language_of language.now) depth (toks_at s.now c.start)) n out.old result out.new }
{
    let mut at = c;
    let mut m = n;
    let mut sign = None;
    loop {
        let r = product(s, language, alone, at, depth, out, m)?;
        let j = join(out, sign, n, r.records, r.string, c.start);
        let code = r.at.code;
        if !is_sum(alone, code) {
            return Ok(Read {
                at: r.at,
                records: j.records,
                string: j.string,
            });
        }
        at = next(s, r.at);
        m = j.records;
        sign = Some(code);
    }
}

// Powers joined by `*` and `/`. It is not one function with `sum`: a closure for the level below, since it is in the cycle,
// would have that level's clauses written out, and with a number for the level it would call itself, a frame for each.
#[cycle(expressions)]
fn product(
    s: &[u8],
    language: &Language,
    alone: bool,
    c: Cursor,
    depth: u32,
    out: &mut [u32],
    n: u32,
) -> Result<Read, Fault>
    requires { Ready s.now c n }
    ensures { Meets s.now (product_or alone (language_of language.now) depth (toks_at s.now c.start)) n out.old result out.new }
{
    let mut at = c;
    let mut m = n;
    let mut sign = None;
    loop {
        let r = power(s, language, at, depth, out, m)?;
        let j = join(out, sign, n, r.records, r.string, c.start);
        let code = r.at.code;
        if !is_product(alone, code) {
            return Ok(Read {
                at: r.at,
                records: j.records,
                string: j.string,
            });
        }
        at = next(s, r.at);
        m = j.records;
        sign = Some(code);
    }
}

// Primaries joined by `**`: left to right, or in the second edition right to left, where each waits, marked, until the last is
// read.
#[cycle(expressions)]
fn power(
    s: &[u8],
    language: &Language,
    c: Cursor,
    depth: u32,
    out: &mut [u32],
    n: u32,
) -> Result<Read, Fault>
    requires { Ready s.now c n }
    ensures { Meets s.now (power_at (language_of language.now) depth (toks_at s.now c.start)) n out.old result out.new }
{
    let mut at = c;
    let mut m = n;
    let mut fits = n;
    let mut count: u32 = 0;
    loop {
        let r = primary(s, language, at, depth, out, m)?;
        let code = r.at.code;
        let more = is_power(code);
        let j = step(
            out,
            language.two,
            more,
            count,
            n,
            fits,
            r.records,
            r.string,
            c.start,
            at.start,
        );
        if !more {
            return Ok(Read {
                at: r.at,
                records: j.records,
                string: j.string,
            });
        }
        at = next(s, r.at);
        m = j.records;
        fits = j.fits;
        count += 1;
    }
}

// What a sign takes in: a primary, or in the second edition the `**` after it too. Another sign there takes it in itself, so that
// nested signs need no more stack than in the first edition.
#[cycle(expressions)]
#[tactic(auto, using(crate::proofs::StepLaws::meets_as, crate::proofs::StepLaws::signed_here))]
fn signed(
    s: &[u8],
    language: &Language,
    c: Cursor,
    depth: u32,
    out: &mut [u32],
    n: u32,
) -> Result<Read, Fault>
    requires { Ready s.now c n }
    ensures { Meets s.now (signed_at (language_of language.now) depth (toks_at s.now c.start)) n out.old result out.new }
{
    let code = c.code;
    if is_raised(language.two, code) {
        return expression(s, language, true, c, depth, out, n);
    }
    primary(s, language, c, depth, out, n)
}

// A primary.
#[cycle(expressions)]
#[tactic(auto, using(crate::proofs::StepLaws::meets_as, crate::proofs::StepLaws::prim_paren, crate::proofs::StepLaws::prim_plus_0, crate::proofs::StepLaws::prim_plus, crate::proofs::StepLaws::prim_list, crate::proofs::StepLaws::prim_pays, crate::proofs::StepLaws::prim_atom, crate::proofs::StepLaws::prim_name, crate::proofs::StepLaws::prim_minus))]
fn primary(
    s: &[u8],
    language: &Language,
    c: Cursor,
    depth: u32,
    out: &mut [u32],
    n: u32,
) -> Result<Read, Fault>
    requires { Ready s.now c n }
    ensures { Meets s.now (primary (language_of language.now) depth (toks_at s.now c.start)) n out.old result out.new }
{
    let d = next(s, c);
    match c.code {
        OPEN_PAREN => parenthesis(s, language, c, d, depth, out, n),
        PLUS => {
            if depth == 0 {
                return Err(Fault::at(c, Ground::Depth));
            }
            signed(s, language, d, depth - 1, out, n)
        }
        MINUS => minus(s, language, c, d, depth, out, n),
        OPEN_BRACKET => list(s, language, c, d, depth, out, n),
        PAYS => pays(s, language, c, d, depth, out, n),
        NAME => name(s, language, c, d, depth, out, n),
        _ => atom_at(s, c, d, out, n),
    }
}

// What a minus, at c, makes of what stands at d behind it: a negated constant, or UnaryMinus of what it takes in.
#[cycle(expressions)]
#[tactic(auto, using(crate::proofs::StepLaws::meets_err, crate::proofs::StepLaws::minus_0, crate::proofs::StepLaws::minus_refused))]
fn minus(
    s: &[u8],
    language: &Language,
    c: Cursor,
    d: Cursor,
    depth: u32,
    out: &mut [u32],
    n: u32,
) -> Result<Read, Fault>
    requires { Ready s.now c n × Follows s.now c d × (c.code ≡ 9) }
    ensures { Meets s.now (minus_at (language_of language.now) depth (token_at s.now c) (toks_at s.now d.start)) n out.old result out.new }
{
    if let Some(e) = lone_at(s, language.two, d) {
        return Ok(constant_at(s, d, e, true, c.start, out, n));
    }
    if depth == 0 {
        return Err(Fault::at(c, Ground::Depth));
    }
    let r = signed(s, language, d, depth - 1, out, n)?;
    Ok(negative(r, c.start, out, n))
}

// An expression in parentheses; d stands behind the opening one, at c.
#[cycle(expressions)]
#[tactic(auto, using(crate::proofs::StepLaws::meets_err, crate::proofs::StepLaws::parenthesis_refused))]
fn parenthesis(
    s: &[u8],
    language: &Language,
    c: Cursor,
    d: Cursor,
    depth: u32,
    out: &mut [u32],
    n: u32,
) -> Result<Read, Fault>
    requires { Ready s.now c n × Follows s.now c d × (c.code ≡ 40) }
    ensures { Meets s.now (parenthesised (language_of language.now) depth (token_at s.now c) (toks_at s.now c.start)) n out.old result out.new }
{
    if depth == 0 {
        return Err(Fault::at(c, Ground::Depth));
    }
    let r = expression(s, language, false, d, depth - 1, out, n)?;
    let at = take(s, r.at, CLOSE_PAREN)?;
    Ok(Read { at, ..r })
}

// A list with postfixes; d stands behind its `[`, at c.
#[cycle(expressions)]
#[tactic(auto, using(crate::proofs::StepLaws::meets_err, crate::proofs::ItemLaws::list_refused))]
fn list(
    s: &[u8],
    language: &Language,
    c: Cursor,
    d: Cursor,
    depth: u32,
    out: &mut [u32],
    n: u32,
) -> Result<Read, Fault>
    requires { Ready s.now c n × Follows s.now c d × (c.code ≡ 44) }
    ensures { Meets s.now (list_postfixed (language_of language.now) depth (token_at s.now c) (toks_at s.now c.start)) n out.old result out.new }
{
    if depth == 0 {
        return Err(Fault::at(c, Ground::Depth));
    }
    let r = items(s, language, d, CLOSE_BRACKET, depth - 1, out, n)?;
    let m = r.records;
    put(
        out,
        m,
        plain(Kind::List as u32, m - n + 1, r.count, c.start),
    );
    let f = next(s, r.at);
    postfixes(s, language, c.start, f, depth, out, n, m + 1)
}

// The parts of a pays, its date and its currency; d stands behind the word, at c.
#[cycle(expressions)]
pub fn pays(
    s: &[u8],
    language: &Language,
    c: Cursor,
    d: Cursor,
    depth: u32,
    out: &mut [u32],
    n: u32,
) -> Result<Read, Fault>
    requires { Ready s.now c n × Follows s.now c d × (c.code ≡ 36) }
    ensures { Meets s.now (pays_at (language_of language.now) depth (toks_at s.now c.start)) n out.old result out.new }
{
    if depth == 0 {
        return Err(Fault::at(c, Ground::Depth));
    }
    let mut at = d;
    let mut m = n;
    let mut count: u32 = 0;
    while !stops_pays(at.code) {
        let r = expression(s, language, false, at, depth - 1, out, m)?;
        at = r.at;
        m = r.records;
        count += 1;
    }
    payday_at(s, language, c.start, at, out, n, m, count)
}

// A call or a variable with postfixes: the name stands at c, and d behind it.
#[cycle(expressions)]
#[tactic(auto, using(crate::proofs::StepLaws::meets_err, crate::proofs::PostfixLaws::name_refuses, crate::proofs::PostfixLaws::name_reads, crate::proofs::PostfixLaws::name_special, crate::proofs::PostfixLaws::call_kind_high))]
fn name(
    s: &[u8],
    language: &Language,
    c: Cursor,
    d: Cursor,
    depth: u32,
    out: &mut [u32],
    n: u32,
) -> Result<Read, Fault>
    requires { Ready s.now c n × Follows s.now c d × (c.code ≡ 1) }
    ensures { Meets s.now (name_at (language_of language.now) depth (token_at s.now c) (toks_at s.now d.start)) n out.old result out.new }
{
    let a = c.start as usize;
    let e = c.end as usize;
    let Some(kind) = call_of(&s[a..e]) else {
        let r = variable_at(s, language.lists.reserved, c, d, out, n)?;
        return postfixes(s, language, c.start, r.at, depth, out, n, r.records);
    };
    match kind {
        Kind::Spot | Kind::Df | Kind::RateIndex => {
            special(s, language, kind, c.start, d, out, n)
        }
        _ => call(s, language, c, d, kind, depth, out, n),
    }
}

// An ordinary call, whose record has this kind: its name stands at c, and d behind it.
#[cycle(expressions)]
#[tactic(auto, using(crate::proofs::StepLaws::meets_err, crate::proofs::ItemLaws::call_refused))]
fn call(
    s: &[u8],
    language: &Language,
    c: Cursor,
    d: Cursor,
    kind: Kind,
    depth: u32,
    out: &mut [u32],
    n: u32,
) -> Result<Read, Fault>
    requires { Ready s.now d n × Holds s.now c × (c.code ≡ 1) × (kind_number kind ≡ call_kind (token_at s.now c).text) × (kind_number kind < 32) }
    ensures { Meets s.now (call_at (language_of language.now) depth (token_at s.now c) (call_of (token_at s.now c).text calls) (toks_at s.now d.start)) n out.old result out.new }
{
    let r = arguments(s, language, d, depth, out, n)?;
    let m = r.records;
    let counters = language.lists.counters;
    call_fault(s, counters, kind, r.count, r.texts).map_err(|cause| Fault::at(c, cause))?;
    put(out, m, plain(kind.number(), m - n + 1, r.count, c.start));
    Ok(Read {
        at: r.at,
        records: m + 1,
        string: None,
    })
}

// An argument list and both its parentheses.
#[cycle(expressions)]
#[tactic(auto, using(crate::proofs::StepLaws::items_err, crate::proofs::ItemLaws::arguments_other, crate::proofs::ItemLaws::arguments_0, crate::proofs::ItemLaws::arguments_refused))]
fn arguments(
    s: &[u8],
    language: &Language,
    c: Cursor,
    depth: u32,
    out: &mut [u32],
    n: u32,
) -> Result<Items, Fault>
    requires { Ready s.now c n }
    ensures { MeetsItems s.now (arguments_at (language_of language.now) depth (toks_at s.now c.start)) n out.old result out.new }
{
    if c.code != OPEN_PAREN {
        return Err(Fault::at(c, Ground::Token));
    }
    // The depth before the token behind, which a gap of any length may part from this one.
    if depth == 0 {
        return Err(Fault::at(c, Ground::Depth));
    }
    let d = next(s, c);
    let r = items(s, language, d, CLOSE_PAREN, depth - 1, out, n)?;
    Ok(Items {
        at: next(s, r.at),
        ..r
    })
}

// Expressions with commas between them, up to the closing sign, which is not taken; a comma may trail.
#[cycle(expressions)]
fn items(
    s: &[u8],
    language: &Language,
    c: Cursor,
    close: u8,
    depth: u32,
    out: &mut [u32],
    n: u32,
) -> Result<Items, Fault>
    requires { Ready s.now c n × Closing close }
    ensures { MeetsItems s.now (items_at (language_of language.now) close depth (toks_at s.now c.start)) n out.old result out.new × Closed close result }
{
    let mut at = c;
    let mut m = n;
    let mut count: u32 = 0;
    let mut texts = Texts {
        first: None,
        second: None,
        third: None,
    };
    while at.code != close {
        let r = expression(s, language, false, at, depth, out, m)?;
        at = follow(s, r.at, close)?;
        texts = shown(texts, count, r.string);
        m = r.records;
        count += 1;
    }
    Ok(Items {
        at,
        records: m,
        count,
        texts,
    })
}

// Postfixes of what was read before, whose text begins at the place, and whose records are those from n to m.
#[cycle(expressions)]
fn postfixes(
    s: &[u8],
    language: &Language,
    place: u16,
    c: Cursor,
    depth: u32,
    out: &mut [u32],
    n: u32,
    m: u32,
) -> Result<Read, Fault>
    requires { Ready s.now c m × (n < m) }
    ensures { (x : Tree) (o : List ℕ) → Tops n o x m out.old → Meets s.now (postfixes_at (language_of language.now) depth place x (toks_at s.now c.start)) n o result out.new }
{
    let mut at = c;
    let mut k = m;
    while is_postfix(at.code) {
        let r = postfix(s, language, place, at, depth, out, n, k)?;
        at = r.at;
        k = r.records;
    }
    Ok(Read {
        at,
        records: k,
        string: None,
    })
}

// One postfix, whose sign stands at c.
#[cycle(expressions)]
fn postfix(
    s: &[u8],
    language: &Language,
    place: u16,
    c: Cursor,
    depth: u32,
    out: &mut [u32],
    n: u32,
    m: u32,
) -> Result<Read, Fault>
    requires { Ready s.now c m × (n < m) × (postfix_sign c.code ≡ true) }
    ensures { MeetsTurns s.now (λ x. postfix_turn_at (language_of language.now) depth place x (toks_at s.now c.start)) n m out.old c result out.new }
{
    let d = next(s, c);
    if c.code == DOT {
        return method(s, language, place, d, depth, out, n, m);
    }
    if depth == 0 {
        return Err(Fault::at(c, Ground::Depth));
    }
    index(s, language, place, d, depth - 1, out, n, m)
}

// A method, behind its `.`.
#[cycle(expressions)]
fn method(
    s: &[u8],
    language: &Language,
    place: u16,
    c: Cursor,
    depth: u32,
    out: &mut [u32],
    n: u32,
    m: u32,
) -> Result<Read, Fault>
    requires { Ready s.now c m × (n < m) }
    ensures { MeetsTurns s.now (λ x. method_at (language_of language.now) depth place x (toks_at s.now c.start)) n m out.old c result out.new }
{
    let d = take(s, c, NAME)?;
    let r = arguments(s, language, d, depth, out, m)?;
    let k = r.records;
    let a = c.start as usize;
    let b = c.end as usize;
    let Some(kind) = method_of(&s[a..b], r.count) else {
        return Err(Fault::at(c, Ground::Arguments));
    };
    put(out, k, plain(kind.number(), k - n + 1, r.count + 1, place));
    Ok(Read {
        at: r.at,
        records: k + 1,
        string: None,
    })
}

// An index, behind its `[`.
#[cycle(expressions)]
fn index(
    s: &[u8],
    language: &Language,
    place: u16,
    c: Cursor,
    depth: u32,
    out: &mut [u32],
    n: u32,
    m: u32,
) -> Result<Read, Fault>
    requires { Ready s.now c m × (n < m) }
    ensures { MeetsTurns s.now (λ x. index_at (language_of language.now) depth place x (toks_at s.now c.start)) n m out.old c result out.new }
{
    let r = expression(s, language, false, c, depth, out, m)?;
    let k = r.records;
    let at = take(s, r.at, CLOSE_BRACKET)?;
    put(out, k, plain(Kind::Index as u32, k - n + 1, 2, place));
    Ok(Read {
        at,
        records: k + 1,
        string: None,
    })
}

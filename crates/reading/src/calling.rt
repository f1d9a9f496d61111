// What stands round the parts of a call, a list and a pays: nothing here reads an expression.
ghost use Rattle.std.specs.Prelude.{◌≡◌, List, [], ℕ, ◌<◌, ◌≤◌, length};
ghost use Rattle.tokens.specs.Names.{names, place, index_of};
ghost use Rattle.tokens.specs.Dates.{date, unless_0};
ghost use Rattle.grammar.specs.Trees.{Tree, Trees, parts};
ghost use Rattle.grammar.specs.Readers.{Out};
ghost use Rattle.grammar.specs.Grammar.{payday};
ghost use Rattle.reading.specs.Meets.{words_in, toks_at, Holds, Ready, Meets, MeetsLeaf, Before};
ghost use Rattle.reading.specs.Rows.{kind_number};
ghost use Rattle.reading.specs.Turns.{Closing, FollowsItem, Shown, shown_by, Inside, content_at, cvg_fault, call_fault, ground_or_0, special_of, pays_stop, negated_by};

use crate::answers::{Fault, Leaf, Read, Texts};
use crate::atoms::next;
use crate::calls::{
    df_at, is_right_count, optional_currency, optional_date, rate_index_at, spot_at,
};
use crate::language::Language;
use crate::records::{Kind, Node, plain, put};
use tokens::codes::{CLOSE_PAREN, COMMA, EOF, IN, ON, SEMICOLON};
use tokens::cursor::Cursor;
use tokens::dates::date_of;
use tokens::names::place_in;
use tokens::refusals::Ground;
use tokens::text::find;

// What follows an expression of a list: a comma, which is taken, or the closing sign, which is not.
pub fn follow(s: &[u8], c: Cursor, close: u8) -> Result<Cursor, Fault>
    requires { Holds s.now c × Closing close }
    ensures { FollowsItem s.now close c result }
{
    if c.code == COMMA {
        return Ok(next(s, c));
    }
    if c.code == close {
        return Ok(c);
    }
    Err(Fault::at(c, Ground::Token))
}

// One more part, behind `count` others, whose string stands at p.
pub fn shown(texts: Texts, count: u32, p: Option<u16>) -> Texts
    ensures { result ≡ shown_by texts count p }
{
    match count {
        0 => Texts { first: p, ..texts },
        1 => Texts { second: p, ..texts },
        2 => Texts { third: p, ..texts },
        _ => texts,
    }
}

// The date in the string content that begins at p.
fn date_at(s: &[u8], p: u16) -> Option<u32>
    requires { p ≤ length s.now }
    ensures { result ≡ unless_0 (date (content_at s.now p)) }
{
    let a = p as usize;
    let e = find(s, a, 34);
    date_of(&s[a..e])
}

// The place of the string content that begins at p among the day counters.
fn counter_at(s: &[u8], counters: &[u8], p: u16) -> Option<usize>
    requires { p ≤ length s.now }
    ensures { result ≡ index_of (place (names counters.now) (content_at s.now p)) }
{
    let a = p as usize;
    let e = find(s, a, 34);
    place_in(counters, &s[a..e])
}

// What the strings of a cvg are refused for: date, date, day counter.
fn cvg_fault(s: &[u8], counters: &[u8], texts: Texts) -> Result<(), Ground>
    requires { Inside s.now texts }
    ensures { (es : Trees) → Shown s.now es texts → parts es ≡ 3 → ground_or_0 result ≡ cvg_fault (names counters.now) es }
{
    let (Some(first), Some(second), Some(third)) = (texts.first, texts.second, texts.third) else {
        return Err(Ground::NoString);
    };
    if date_at(s, first).is_none() || date_at(s, second).is_none() {
        return Err(Ground::Date);
    }
    if counter_at(s, counters, third).is_none() {
        return Err(Ground::DayCounter);
    }
    Ok(())
}

// What the arguments of a call are refused for: count before strings, strings before dates, dates before the day counter.
pub fn call_fault(
    s: &[u8],
    counters: &[u8],
    kind: Kind,
    count: u32,
    texts: Texts,
) -> Result<(), Ground>
    requires { Inside s.now texts }
    ensures { (es : Trees) → Shown s.now es texts → count ≡ parts es → ground_or_0 result ≡ call_fault (names counters.now) (kind_number kind) es }
{
    if !is_right_count(kind, count) {
        return Err(Ground::Arguments);
    }
    match kind {
        Kind::Cvg => cvg_fault(s, counters, texts),
        _ => Ok(()),
    }
}

// Writes a node without parts.
fn written(leaf: Leaf, out: &mut [u32], n: u32) -> Read
    requires { n < 50000 }
    ensures { (t : List ℕ) (R : Out Tree) → MeetsLeaf t R (Ok leaf) → Meets t R n out.old (Ok result) out.new }
{
    put(out, n, leaf.node);
    Read {
        at: leaf.at,
        records: n + 1,
        string: None,
    }
}

// UnaryMinus of what was read into the records from n on; its minus stands at the place.
pub fn negative(r: Read, place: u16, out: &mut [u32], n: u32) -> Read
    requires { (n ≤ r.records) × (r.records < 50000) }
    ensures { (t : List ℕ) (R : Out Tree) (o : List ℕ) → Meets t R n o (Ok r) out.old → Meets t (negated_by place R) n o (Ok result) out.new }
{
    let node = plain(Kind::UnaryMinus as u32, r.records - n + 1, 1, place);
    put(out, r.records, node);
    Read {
        at: r.at,
        records: r.records + 1,
        string: None,
    }
}

// Spot, Df or RateIndex, by the kind of its record: the name stands at the place, and c behind it.
pub fn special(
    s: &[u8],
    language: &Language,
    kind: Kind,
    place: u16,
    c: Cursor,
    out: &mut [u32],
    n: u32,
) -> Result<Read, Fault>
    requires { Ready s.now c n }
    ensures { Meets s.now (special_of (words_in [] language.now.lists.currencies.now []) (kind_number kind) place (toks_at s.now c.start)) n out.old result out.new }
{
    let leaf = match kind {
        Kind::Spot => spot_at(s, language, place, c)?,
        Kind::Df => df_at(s, place, c)?,
        // RateIndex: `expressions::name` sends no other kind here.
        _ => rate_index_at(s, place, c)?,
    };
    Ok(written(leaf, out, n))
}

// Behind the parts of a pays: its date, its currency, and then its record. Its word stands at the place; its parts are the
// `count` trees from n to m.
pub fn payday_at(
    s: &[u8],
    language: &Language,
    place: u16,
    c: Cursor,
    out: &mut [u32],
    n: u32,
    m: u32,
    count: u32,
) -> Result<Read, Fault>
    requires { Ready s.now c m × (n ≤ m) }
    ensures { (es : Trees) (o : List ℕ) → Before n o es m out.old → count ≡ parts es → Meets s.now (payday (words_in [] language.now.lists.currencies.now []) place es (toks_at s.now c.start)) n o result out.new }
{
    let day = optional_date(s, c, ON)?;
    let money = optional_currency(s, language, day.at, IN)?;
    put(
        out,
        m,
        Node {
            kind: Kind::Pays as u32,
            nodes: m - n + 1,
            parts: count,
            f1: day.value,
            f2: money.value,
            f3: 0,
            f4: 0,
            place: place as u32,
        },
    );
    Ok(Read {
        at: money.at,
        records: m + 1,
        string: None,
    })
}

// What ends the parts of a pays.
pub fn stops_pays(code: u8) -> bool
    ensures { result ≡ pays_stop code }
{
    code == SEMICOLON || (code == CLOSE_PAREN || (code == ON || (code == IN || code == EOF)))
}

// Calls: their names, their argument counts, and those that take string tokens only.
ghost use Rattle.std.specs.Prelude.{◌≡◌, []};
ghost use Rattle.tokens.specs.Dates.{unless_0};
ghost use Rattle.grammar.specs.Grammar.{a_date, a_currency, df, curve, rate_index, rate_of, spot, spot_of, equity, pair};
ghost use Rattle.grammar.specs.Trees.{Tree};
ghost use Rattle.grammar.specs.Readers.{Out, bind};
ghost use Rattle.reading.specs.Calls.{call_kind, right_count, method_kind, optional_by, ending, date_in, kind_or_none};
ghost use Rattle.reading.specs.Meets.{words_in, toks_at, token_at, Holds, Follows, MeetsNumber, MeetsLeaf, Leads};
ghost use Rattle.reading.specs.Rows.{kind_number};

use crate::answers::{Fault, Leaf, Number};
use crate::atoms::{next, take};
use crate::language::Language;
use crate::records::{Kind, leaf};
use tokens::codes::{CLOSE_PAREN, COMMA, OPEN_PAREN, STRING};
use tokens::cursor::Cursor;
use tokens::dates::date_of;
use tokens::names::place_in;
use tokens::refusals::Ground;

// The kind of record that a call of this name makes.
#[tactic(auto, using(crate::proofs::NamedLaws::called_names))]
pub fn call_of(w: &[u8]) -> Option<Kind>
    ensures { kind_or_none result ≡ call_kind w.now }
{
    match w {
        b"ln" => Some(Kind::Ln),
        b"exp" => Some(Kind::Exp),
        b"pow" => Some(Kind::Pow),
        b"min" => Some(Kind::Min),
        b"max" => Some(Kind::Max),
        b"cvg" => Some(Kind::Cvg),
        b"fif" => Some(Kind::Fif),
        b"range" => Some(Kind::Range),
        b"Spot" => Some(Kind::Spot),
        b"Df" => Some(Kind::Df),
        b"RateIndex" => Some(Kind::RateIndex),
        _ => None,
    }
}

// Whether a call takes so many arguments.
pub fn is_right_count(kind: Kind, count: u32) -> bool
    ensures { result ≡ right_count (kind_number kind) count }
{
    match kind {
        Kind::Ln | Kind::Exp => count == 1,
        Kind::Pow | Kind::Range => count == 2,
        Kind::Min | Kind::Max => 2 <= count && count <= 100,
        Kind::Cvg => count == 3,
        Kind::Fif => count == 4,
        _ => false,
    }
}

// The kind of record that a method of this name makes with so many arguments.
#[tactic(auto, using(crate::proofs::NamedLaws::called_methods))]
pub fn method_of(w: &[u8], count: u32) -> Option<Kind>
    ensures { kind_or_none result ≡ method_kind w.now count }
{
    match (w, count) {
        (b"append", 1) => Some(Kind::Append),
        (b"mean", 0) => Some(Kind::Mean),
        (b"std", 0) => Some(Kind::Std),
        _ => None,
    }
}

// A string token that must be a date.
fn date(s: &[u8], c: Cursor) -> Result<Number, Fault>
    requires { Holds s.now c }
    ensures { MeetsNumber s.now (a_date (toks_at s.now c.start)) result }
{
    let at = take(s, c, STRING)?;
    let Some(value) = date_in(s, c) else {
        return Err(Fault::at(c, Ground::Date));
    };
    Ok(Number { at, value })
}

// A string token that must be a currency.
fn currency(s: &[u8], language: &Language, c: Cursor) -> Result<Number, Fault>
    requires { Holds s.now c }
    ensures { MeetsNumber s.now (a_currency (words_in [] language.now.lists.currencies.now []) (toks_at s.now c.start)) result }
{
    let at = take(s, c, STRING)?;
    let a = c.start as usize + 1;
    let e = c.end as usize - 1;
    let Some(place) = place_in(language.lists.currencies, &s[a..e]) else {
        return Err(Fault::at(c, Ground::Currency));
    };
    Ok(Number {
        at,
        value: place as u32 + 1,
    })
}

// Where this sign stands, a date behind it; else 0.
pub fn optional_date(s: &[u8], c: Cursor, sign: u8) -> Result<Number, Fault>
    requires { Holds s.now c × (sign ≡ 0 → ⊥) }
    ensures { MeetsNumber s.now (optional_by sign 0 a_date (toks_at s.now c.start)) result }
{
    if c.code != sign {
        return Ok(Number { at: c, value: 0 });
    }
    date(s, next(s, c))
}

// Where this sign stands, a currency behind it; else 0. It is not one function with `optional_date`: each caller would hand in
// a closure that calls the reader, which is no shorter than these lines.
pub fn optional_currency(
    s: &[u8],
    language: &Language,
    c: Cursor,
    sign: u8,
) -> Result<Number, Fault>
    requires { Holds s.now c × (sign ≡ 0 → ⊥) }
    ensures { MeetsNumber s.now (optional_by sign 0 (a_currency (words_in [] language.now.lists.currencies.now [])) (toks_at s.now c.start)) result }
{
    if c.code != sign {
        return Ok(Number { at: c, value: 0 });
    }
    currency(s, language, next(s, c))
}

// An equity: the string at c is its name, and d stands behind it. The word `Spot` stands at the place, as below.
fn equity_at(s: &[u8], place: u16, c: Cursor, d: Cursor) -> Result<Leaf, Fault>
    requires { Holds s.now c × Follows s.now c d × (c.code ≡ 5) }
    ensures { MeetsLeaf s.now (equity (words_in [] [] []) place (token_at s.now c) (toks_at s.now d.start)) result }
{
    let day = optional_date(s, d, COMMA)?;
    let start = (c.start + 1) as u32;
    let size = (c.end - c.start - 2) as u32;
    Ok(Leaf {
        at: day.at,
        node: leaf(Kind::EquitySpot, start, size, day.value, 0, place),
    })
}

// A pair of currencies, the first of which is known; c stands behind it.
fn pair_at(s: &[u8], language: &Language, place: u16, first: u32, c: Cursor) -> Result<Leaf, Fault>
    requires { Holds s.now c }
    ensures { MeetsLeaf s.now (pair (words_in [] language.now.lists.currencies.now []) place first (toks_at s.now c.start)) result }
{
    if c.code != COMMA {
        return Ok(Leaf {
            at: c,
            node: leaf(Kind::Spot, first, 1, 0, 0, place),
        });
    }
    let second = currency(s, language, next(s, c))?;
    let day = optional_date(s, second.at, COMMA)?;
    Ok(Leaf {
        at: day.at,
        node: leaf(Kind::Spot, first, second.value, day.value, 0, place),
    })
}

// What stands behind the first string of a Spot, at c, up to its closing sign; d stands behind the string.
fn spot_of(s: &[u8], language: &Language, place: u16, c: Cursor, d: Cursor) -> Result<Leaf, Fault>
    requires { Holds s.now c × Follows s.now c d × (c.code ≡ 5) }
    ensures { MeetsLeaf s.now (spot_of (words_in [] language.now.lists.currencies.now []) place (token_at s.now c) (toks_at s.now d.start)) result }
{
    let a = c.start as usize + 1;
    let e = c.end as usize - 1;
    match place_in(language.lists.currencies, &s[a..e]) {
        None => equity_at(s, place, c, d),
        Some(number) => pair_at(s, language, place, number as u32 + 1, d),
    }
}

// A leaf and its closing sign.
fn closed(s: &[u8], leaf: Leaf) -> Result<Leaf, Fault>
    requires { Holds s.now leaf.at }
    ensures { (R : Out Tree) → MeetsLeaf s.now R (Ok leaf) → MeetsLeaf s.now (bind ending R) result }
{
    let at = take(s, leaf.at, CLOSE_PAREN)?;
    Ok(Leaf { at, ..leaf })
}

// Spot, behind its name.
pub fn spot_at(s: &[u8], language: &Language, place: u16, c: Cursor) -> Result<Leaf, Fault>
    requires { Holds s.now c }
    ensures { MeetsLeaf s.now (spot (words_in [] language.now.lists.currencies.now []) place (toks_at s.now c.start)) result }
{
    let name = take(s, c, OPEN_PAREN)?;
    let d = take(s, name, STRING)?;
    closed(s, spot_of(s, language, place, name, d)?)
}

// What stands behind the date of a Df, up to its closing sign.
fn curve_at(s: &[u8], place: u16, day: u32, c: Cursor) -> Result<Leaf, Fault>
    requires { Holds s.now c }
    ensures { MeetsLeaf s.now (curve place day (toks_at s.now c.start)) result }
{
    if c.code != COMMA {
        return Ok(Leaf {
            at: c,
            node: leaf(Kind::Df, day, 0, 0, 0, place),
        });
    }
    let name = next(s, c);
    let at = take(s, name, STRING)?;
    let start = (name.start + 1) as u32;
    let size = (name.end - name.start - 2) as u32;
    Ok(Leaf {
        at,
        node: leaf(Kind::Df, day, start, size, 0, place),
    })
}

// Df, behind its name.
pub fn df_at(s: &[u8], place: u16, c: Cursor) -> Result<Leaf, Fault>
    requires { Holds s.now c }
    ensures { MeetsLeaf s.now (df place (toks_at s.now c.start)) result }
{
    let d = take(s, c, OPEN_PAREN)?;
    let day = date(s, d)?;
    closed(s, curve_at(s, place, day.value, day.at)?)
}

// A sign and the string token behind it: the cursor at the string.
fn string_behind(s: &[u8], c: Cursor, sign: u8) -> Result<Cursor, Fault>
    requires { Holds s.now c × (sign ≡ 0 → ⊥) }
    ensures { Leads s.now sign c result }
{
    let d = take(s, c, sign)?;
    if d.code != STRING {
        return Err(Fault::at(d, Ground::Token));
    }
    Ok(d)
}

// The date in the string at c.
fn date_in(s: &[u8], c: Cursor) -> Option<u32>
    requires { Holds s.now c × (c.code ≡ 5) }
    ensures { result ≡ unless_0 (date_in (token_at s.now c)) }
{
    let a = c.start as usize + 1;
    let e = c.end as usize - 1;
    date_of(&s[a..e])
}

// The dates of a RateIndex are judged when all of it is read: its name is the string at a, the dates those at b and c.
fn rate(s: &[u8], place: u16, a: Cursor, b: Cursor, c: Cursor, d: Cursor) -> Result<Leaf, Fault>
    requires { Holds s.now a × Holds s.now b × Holds s.now c × Holds s.now d × (a.code ≡ 5) × (b.code ≡ 5) × (c.code ≡ 5) }
    ensures { MeetsLeaf s.now (rate_of place (token_at s.now a) (token_at s.now b) (token_at s.now c) (toks_at s.now d.start)) result }
{
    let Some(first) = date_in(s, b) else {
        return Err(Fault::at(b, Ground::Date));
    };
    let Some(second) = date_in(s, c) else {
        return Err(Fault::at(c, Ground::Date));
    };
    let start = (a.start + 1) as u32;
    let size = (a.end - a.start - 2) as u32;
    Ok(Leaf {
        at: d,
        node: leaf(Kind::RateIndex, start, size, first, second, place),
    })
}

// RateIndex, behind its name.
pub fn rate_index_at(s: &[u8], place: u16, c: Cursor) -> Result<Leaf, Fault>
    requires { Holds s.now c }
    ensures { MeetsLeaf s.now (rate_index place (toks_at s.now c.start)) result }
{
    let name = string_behind(s, c, OPEN_PAREN)?;
    let from = string_behind(s, next(s, name), COMMA)?;
    let to = string_behind(s, next(s, from), COMMA)?;
    let d = take(s, next(s, to), CLOSE_PAREN)?;
    rate(s, place, name, from, to, d)
}

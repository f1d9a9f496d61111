// The lookup: the name that a record holds, handed back as a part of the script or of the list of currencies.
ghost use Rattle.std.specs.Prelude.{◌≡◌, length};
ghost use Rattle.reading.specs.Parts.{HandsBack, as_name, of_script, empty, first_name, second_name, name_in, text_at, currency_at, part_named, placed};

use crate::records::{DF, EQUITY_SPOT, FOR_EACH, Node, PAYS, RATE_INDEX, SPOT, STRING, VARIABLE};
use tokens::names::is_well_formed;

// What a record's words say of a name: bytes of the script, from the statement's start, or a currency, by its place in the
// list plus 1.
#[derive(Clone, Copy)]
enum Name {
    Text(u32, u32),
    Currency(u32),
}

// Where a part stands: in the list of currencies or in the script, from which byte, and how many. The three words of the
// C interface, `in_list` among them.
#[derive(Clone, Copy)]
pub struct Place {
    pub in_list: bool,
    pub from: usize,
    pub size: usize,
}

// The part that a record names, asked for its first name, or a Spot's second; where there is none, the empty part at the
// script's start. The record is the first words of its slice, and its places count from its statement's start.
#[tactic(auto, using(crate::proofs::PartLaws::ends_in_script, crate::proofs::PartLaws::ends_in_list))]
pub fn part<'a>(
    script: &'a [u8],
    currencies: &'a [u8],
    record: &[u32],
    start: u32,
    second: bool,
) -> &'a [u8]
    ensures { HandsBack script.entry currencies.entry (part_named script.now currencies.now «record».now start second) result }
{
    let place = place_of(script, currencies, record, start, second);
    let from = place.from;
    let size = place.size;
    if place.in_list {
        return &currencies[from..from + size];
    }
    &script[from..from + size]
}

// The same part by numbers, for callers that keep no slice.
#[tactic(auto, unfolding(crate::specs::Parts::part_at))]
pub fn place_of(script: &[u8], currencies: &[u8], record: &[u32], start: u32, second: bool) -> Place
    ensures { result ≡ placed (part_named script.now currencies.now «record».now start second) }
{
    match name_in(record, second) {
        Some(Name::Text(at, size)) => text_at(script, start, at, size),
        Some(Name::Currency(number)) => currency_at(currencies, number),
        None => nowhere(),
    }
}

// The empty part at the script's start.
fn nowhere() -> Place
    ensures { result ≡ placed (of_script empty) }
{
    Place {
        in_list: false,
        from: 0,
        size: 0,
    }
}

#[tactic(auto, unfolding(crate::specs::Parts::name_in))]
fn name_in(record: &[u32], second: bool) -> Option<Name>
    ensures { as_name result ≡ name_in «record».now second }
{
    if record.len() < Node::WIDTH {
        return None;
    }
    if second {
        return second_name(record[0], record[4]);
    }
    first_name(record[0], record[3], record[4], record[5])
}

#[tactic(auto, unfolding(crate::specs::Parts::first_name))]
fn first_name(kind: u32, f1: u32, f2: u32, f3: u32) -> Option<Name>
    ensures { as_name result ≡ first_name kind f1 f2 f3 }
{
    match kind {
        VARIABLE | STRING | EQUITY_SPOT | RATE_INDEX | FOR_EACH => Some(Name::Text(f1, f2)),
        DF if f2 != 0 => Some(Name::Text(f2, f3)),
        SPOT => Some(Name::Currency(f1)),
        PAYS => Some(Name::Currency(f2)),
        _ => None,
    }
}

fn second_name(kind: u32, f2: u32) -> Option<Name>
    ensures { as_name result ≡ second_name kind f2 }
{
    match kind {
        SPOT => Some(Name::Currency(f2)),
        _ => None,
    }
}

// The sums are made in 64 bits, where they cannot wrap, so no place past 32 bits is taken for one inside.
#[tactic(auto, unfolding(crate::specs::Parts::text_at))]
fn text_at(script: &[u8], start: u32, at: u32, size: u32) -> Place
    ensures { result ≡ placed (of_script (text_at (length script.now) start at size)) }
{
    let from = start as usize + at as usize;
    if from + size as usize <= script.len() {
        return Place {
            in_list: false,
            from,
            size: size as usize,
        };
    }
    nowhere()
}

// In a list that is well formed each currency has three bytes and its line feed. So the place of a name, which the
// definition counts from the names before it, is computed here, and the list is not walked again.
#[tactic(auto, using(crate::proofs::PartLaws::currency_none, crate::proofs::PartLaws::currency_malformed, crate::proofs::PartLaws::currency_is, crate::proofs::PartLaws::currency_outside))]
fn currency_at(currencies: &[u8], number: u32) -> Place
    ensures { result ≡ placed (currency_at currencies.now number) }
{
    if number == 0 || !is_well_formed(true, currencies) {
        return nowhere();
    }
    let from = (number as usize - 1) * 4;
    if from < currencies.len() {
        return Place {
            in_list: true,
            from,
            size: 3,
        };
    }
    nowhere()
}

// Lent lists of names: reserved words, currencies, day counters.
ghost use Rattle.std.specs.Prelude.{◌≡◌, false, ◌-◌, ◌≤◌, ◌<◌, eqb, length, take, drop};
ghost use Rattle.tokens.specs.Text.{bytes};
ghost use Rattle.tokens.specs.Names.{names, ended, place, index_of, good_length, good_byte, good_name, good_names, good_list};
ghost use Rattle.tokens.specs.Slots.{slot_of, double_by};
ghost use Rattle.tokens.specs.Sieve.{Sifts};

use crate::text::{equal, find, is_capital};

const MOST_NAMES: usize = 256;

const LONGEST_NAME: usize = 32;

// The place of a name in a list, by a walk from name to name.
fn walked(list: &[u8], name: &[u8]) -> Option<usize>
    ensures { result ≡ index_of (place (names list.now) name.now) }
{
    let mut at: usize = 0;
    let mut k: usize = 0;
    // `split` would give an empty part behind the last line feed, where `Names.names` has none, so the places are counted.
    while at < list.len() {
        let e = find(list, at, b'\n');
        if equal(&list[at..e], name) {
            return Some(k);
        }
        k += 1;
        at = e + 1;
    }
    None
}

// 0 where a first byte, a last one and a line feed stand somewhere in a list as they would for a name of n bytes. Nothing
// leaves the loop early, so that it is compiled to take many bytes at once.
fn lowest(list: &[u8], n: usize, first: u8, last: u8) -> u8
    requires { (1 ≤ n) × (n < length list.now) }
    ensures { Sifts list.now n first last (length list.now - n) result }
{
    let most = list.len() - n;
    let mut low: u8 = 3;
    for i in 0..most {
        let a = u8::from(list[i] != first);
        let b = u8::from(list[i + n - 1] != last);
        let c = u8::from(list[i + n] != b'\n');
        low = low.min(a + b + c);
    }
    low
}

// Whether a name is worth looking for in a list. Most are not, and that is known without a walk.
fn may_hold(list: &[u8], name: &[u8]) -> bool
    ensures { result ≡ false → place (names list.now) name.now ≡ 0 }
{
    let n = name.len();
    if n == 0 {
        return true;
    }
    if list.len() <= n {
        return true;
    }
    if list[list.len() - 1] != b'\n' {
        return true;
    }
    lowest(list, n, name[0], name[n - 1]) == 0
}

// The place of a name in a list, from 0.
pub fn place_in(list: &[u8], name: &[u8]) -> Option<usize>
    ensures { result ≡ index_of (place (names list.now) name.now) }
{
    if !may_hold(list, name) {
        return None;
    }
    walked(list, name)
}

fn is_good_length(money: bool, n: usize) -> bool
    ensures { result ≡ good_length money n }
{
    if money {
        return n == 3;
    }
    (1..=LONGEST_NAME).contains(&n)
}

// The quote first, so that the compiler makes one test of the range.
fn is_good_byte(money: bool, b: u8) -> bool
    ensures { result ≡ good_byte money b }
{
    if money {
        return is_capital(b);
    }
    b != b'"' && matches!(b, 32..=126)
}

fn is_good_name(money: bool, name: &[u8]) -> bool
    ensures { result ≡ good_name money name.now }
{
    is_good_length(money, name.len()) && name.iter().all(|&b| is_good_byte(money, b))
}

// A slot for a name: two equal names have the same.
#[tactic(auto, using(crate::proofs::SlotLaws::slot_turn, crate::proofs::SlotLaws::slot_end))]
fn slot_of(name: &[u8]) -> usize
    ensures { (result ≡ slot_of name.now) × (result < 2048) }
{
    let mut h = 0;
    for &b in name {
        h = (h * 37 + b as usize) % 2048;
    }
    h
}

// Whether the name from `at` to `e` stands before too. Where its slot is free it does not, and nothing is walked.
fn is_double(list: &[u8], at: usize, e: usize, taken: bool) -> bool
    requires { (at ≤ e) × (e ≤ length list.now) }
    ensures { result ≡ double_by taken (names (take at list.now)) (take (e - at) (drop at list.now)) }
{
    taken && place_in(&list[..at], &list[at..e]).is_some()
}

// Not too many names, each good, none twice: in one walk, with the slots of the names passed, a table and no set, since there is
// no heap. Not inlined, since the slots would then lie in the frame of the reader, below all that it reads.
#[inline(never)]
fn are_good(money: bool, list: &[u8]) -> bool
    ensures { result ≡ good_names money (names list.now) }
{
    let mut slots = [false; 2048];
    let mut at: usize = 0;
    let mut k: usize = 0;
    // `split` would give an empty part behind the last line feed, where `Names.names` has none, so the places are counted.
    while at < list.len() {
        if k == MOST_NAMES {
            return false;
        }
        let e = find(list, at, b'\n');
        if !is_good_name(money, &list[at..e]) {
            return false;
        }
        let h = slot_of(&list[at..e]);
        if is_double(list, at, e, slots[h]) {
            return false;
        }
        slots[h] = true;
        k += 1;
        at = e + 1;
    }
    true
}

fn is_ended(list: &[u8]) -> bool
    ensures { result ≡ ended list.now }
{
    matches!(list, [] | [.., b'\n'])
}

#[tactic(auto, unfolding(crate::specs::Text::bytes))]
fn is_usd_first(list: &[u8]) -> bool
    ensures { result ≡ eqb (place (names list.now) (bytes "USD")) 1 }
{
    place_in(list, b"USD") == Some(0)
}

// Whether a list is well formed, as one of currencies or as another.
#[tactic(auto, using(crate::proofs::NameLaws::none_good), unfolding(crate::specs::Names::good_list))]
pub fn is_well_formed(money: bool, list: &[u8]) -> bool
    ensures { result ≡ good_list money list.now }
{
    // An empty list, as two of the three may be, has no names: that costs no table of slots.
    is_ended(list) && (list.is_empty() || are_good(money, list)) && (!money || is_usd_first(list))
}

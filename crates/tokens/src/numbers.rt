// Number literals: whether the bytes of one are taken, its value as an f64, and that value's bits.
ghost use Rattle.std.specs.Prelude.{◌≡◌, not, ◌-◌, ◌<◌, ◌^◌, ◌/◌, ◌%◌, T};
ghost use Rattle.std.specs.Float.Ieee.{neg, is_nan};
ghost use Rattle.tokens.specs.Numbers.{number_fault, fault_of, as_fault, value_of, signed, bits_of};
ghost use Rattle.tokens.specs.Runs.{up, grow, feed, feed_all, begin};

use crate::refusals::Ground;

// A table, since `pow` was tried, and took longer for each literal, up to five times.
const TENS: [u64; 16] = [
    1,
    10,
    100,
    1000,
    10000,
    100000,
    1000000,
    10000000,
    100000000,
    1000000000,
    10000000000,
    100000000000,
    1000000000000,
    10000000000000,
    100000000000000,
    1000000000000000,
];

const MOST_DIGITS: u64 = 9007199254740992;

const MOST_DECIMALS: u32 = 15;

// What is kept of a literal while its bytes are read: counts that stop above their limits.
#[derive(Clone, Copy)]
pub struct Run {
    pub dots: u32,
    pub digits: u64,
    pub decimals: u32,
}

#[derive(Clone, Copy)]
pub struct Bits {
    pub high: u32,
    pub low: u32,
}

fn up_to(n: u32, cap: u32) -> u32
    ensures { result ≡ up n cap }
{
    if n < cap { n + 1 } else { n }
}

fn grown(v: u64, b: u8) -> u64
    ensures { result ≡ grow v b }
{
    if v <= MOST_DIGITS {
        v * 10 + u64::from(b.saturating_sub(b'0'))
    } else {
        v
    }
}

fn fed(r: Run, b: u8) -> Run
    ensures { result ≡ feed r b }
{
    if b == b'.' {
        return Run {
            dots: up_to(r.dots, 2),
            ..r
        };
    }
    let digits = grown(r.digits, b);
    if 0 < r.dots {
        return Run {
            digits,
            decimals: up_to(r.decimals, 16),
            ..r
        };
    }
    Run { digits, ..r }
}

fn measured(w: &[u8]) -> Run
    ensures { result ≡ feed_all w.now begin }
{
    let begin = Run {
        dots: 0,
        digits: 0,
        decimals: 0,
    };
    w.iter().fold(begin, |run, &b| fed(run, b))
}

impl Run {
    fn judged(self) -> Result<(), Ground>
        ensures { as_fault result ≡ fault_of self.dots self.digits self.decimals }
    {
        if 1 < self.dots {
            return Err(Ground::Number);
        }
        if MOST_DIGITS < self.digits || MOST_DECIMALS < self.decimals {
            return Err(Ground::LongNumber);
        }
        Ok(())
    }
}

// Whether the bytes of a literal are taken, or the ground on which they are refused: 5 before 6.
#[tactic(auto, using(crate::proofs::NumberLaws::fault_said))]
pub fn number_fault(w: &[u8]) -> Result<(), Ground>
    ensures { as_fault result ≡ number_fault w.now }
{
    measured(w).judged()
}

#[tactic(auto, using(crate::proofs::TableLaws::tens_is))]
fn ten_to(n: usize) -> u64
    requires { n < 16 }
    ensures { result ≡ 10 ^ n }
{
    TENS[n]
}

// The value of a literal, by one division; 0 where its bytes are refused (5, 6), since it cannot fail, which may not change.
#[tactic(auto, using(crate::proofs::NumberLaws::fault_none, crate::proofs::NumberLaws::value_said, crate::proofs::NumberLaws::value_none, crate::proofs::FloatLaws::zero_is, crate::proofs::RefusalLaws::number_in))]
pub fn value_of(w: &[u8]) -> f64
    ensures { result ≡ value_of w.now }
{
    let run = measured(w);
    match run.judged() {
        Err(_) => 0.0,
        Ok(()) => run.digits as f64 / ten_to(run.decimals as usize) as f64,
    }
}

fn halves(n: u64) -> Bits
    ensures { (result.high ≡ n / 2 ^ 32) × (result.low ≡ n % 2 ^ 32) }
{
    Bits {
        high: (n >> 32) as u32,
        low: (n % 4294967296) as u32,
    }
}

fn parted(x: f64) -> Bits
    requires { T (not (is_nan x)) }
    ensures { result ≡ bits_of x }
{
    halves(f64::to_bits(x))
}

// The bits of a literal's value, negated where a minus stands before it.
#[tactic(auto, using(crate::proofs::FloatLaws::value_number, crate::proofs::FloatLaws::neg_number))]
pub fn bits_of(w: &[u8], minus: bool) -> Bits
    ensures { result ≡ bits_of (signed minus (value_of w.now)) }
{
    let x = value_of(w);
    if minus { parted(-x) } else { parted(x) }
}

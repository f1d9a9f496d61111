// Days of the Gregorian calendar and their counts: 0001-01-01 is 1, and 9999-12-31 is 3652059.
ghost use Rattle.std.specs.Prelude.{◌≡◌, ◌-◌, ◌≤◌, ◌<◌};
ghost use Rattle.calendar.specs.Calendar.{leap, days_of, year_days, last_year, dated, is_day, total, count_of, last_count, day_of};

const LAST_YEAR: u32 = 9999;

const LAST_COUNT: u32 = 3652059;

#[derive(Clone, Copy)]
pub struct Day {
    pub year: u32,
    pub month: u32,
    pub day: u32,
}

fn is_leap(y: u32) -> bool
    ensures { result ≡ leap y }
{
    y % 4 == 0 && (y % 100 != 0 || y % 400 == 0)
}

fn days_in(y: u32, m: u32) -> u32
    ensures { result ≡ days_of y m }
{
    match m {
        2 => if is_leap(y) { 29 } else { 28 },
        4 | 6 | 9 | 11 => 30,
        _ => 31,
    }
}

fn is_day(y: u32, m: u32, d: u32) -> bool
    ensures { result ≡ is_day (dated y m d) }
{
    1 <= y && y <= LAST_YEAR && 1 <= m && m <= 12 && 1 <= d && d <= days_in(y, m)
}

// The days of the first n years: 365 each, and a leap day by the Gregorian rule.
#[tactic(auto, using(crate::proofs::YearLaws::years_by_rule))]
fn days_of_years(n: u32) -> u32
    requires { n ≤ last_year }
    ensures { result ≡ total year_days n }
{
    n * 365 + n / 4 - n / 100 + n / 400
}

// The days of the first n months of a year that is no leap year.
#[tactic(auto, unfolding(crate::specs::Calendar::total))]
fn days_of_plain_months(n: u32) -> u32
    requires { n ≤ 12 }
    ensures { result ≡ total (days_of 1) n }
{
    match n {
        0 => 0,
        1 => 31,
        2 => 59,
        3 => 90,
        4 => 120,
        5 => 151,
        6 => 181,
        7 => 212,
        8 => 243,
        9 => 273,
        10 => 304,
        11 => 334,
        _ => 365,
    }
}

// The days of the first n months of the year y.
#[tactic(auto, using(crate::proofs::YearLaws::months_of, crate::proofs::YearLaws::months_most))]
fn days_of_months(y: u32, n: u32) -> u32
    requires { n ≤ 12 }
    ensures { result ≡ total (days_of y) n }
{
    let plain = days_of_plain_months(n);
    if n < 2 {
        return plain;
    }
    if is_leap(y) { plain + 1 } else { plain }
}

// The count of the day d of the month m of the year y, 0 where there is no such day, as C has it and since it cannot fail,
// which may not change. The three are handed over as they are, as C hands them over (`calendar_count`).
#[tactic(auto, unfolding(crate::specs::Calendar::count_of))]
pub fn count_of(y: u32, m: u32, d: u32) -> u32
    ensures { result ≡ count_of (dated y m d) }
{
    if !is_day(y, m, d) {
        return 0;
    }
    days_of_years(y - 1) + days_of_months(y, m - 1) + d
}

// The year of the day with the count n. 400 years have 146097 days; by that measure a day falls into its own year or, near
// the turn, into the year before.
fn year_of(n: u32) -> u32
    requires { (1 ≤ n) × (n ≤ last_count) }
    ensures { (1 ≤ result) × (result ≤ last_year) × (total year_days (result - 1) < n) × (n ≤ total year_days result) }
{
    let before = (n - 1) * 400 / 146097;
    if n <= days_of_years(before + 1) {
        before + 1
    } else {
        before + 2
    }
}

// The month of the n-th day of the year y. No month has more than 31 days; by that measure a day falls into its own month or
// into the month before.
fn month_of(y: u32, n: u32) -> u32
    requires { (1 ≤ n) × (n ≤ year_days y) }
    ensures { (1 ≤ result) × (result ≤ 12) × (total (days_of y) (result - 1) < n) × (n ≤ total (days_of y) result) }
{
    let before = (n - 1) / 31;
    if n <= days_of_months(y, before + 1) {
        before + 1
    } else {
        before + 2
    }
}

// The day that has the count n; year, month and day are 0 where none has it, as C has it and since it cannot fail, which may
// not change.
pub fn day_of(n: u32) -> Day
    ensures { result ≡ day_of n }
{
    if n == 0 || LAST_COUNT < n {
        return Day {
            year: 0,
            month: 0,
            day: 0,
        };
    }
    let year = year_of(n);
    let left = n - days_of_years(year - 1);
    let month = month_of(year, left);
    Day {
        year,
        month,
        day: left - days_of_months(year, month - 1),
    }
}

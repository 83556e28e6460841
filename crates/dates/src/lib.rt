// Dates and day numbers, by counting years and months one by one. All of it is inner: what each function
// means is its definition in specs/Dates.antt, and callers see no more than that.
#![tactic(auto)]

ghost use Rattle.std.specs.Prelude.{◌≡◌, true, ◌+◌, ◌-◌, ◌≤◌};
ghost use Rattle.dates.specs.Dates.{leap, year_days, month_days, is_date, years_days, months_days, day_number, is_day, last_begun, year_of, new_year};

// The days of the months; 0 stands before the first.
const DAYS: [u64; 13] = [0, 31, 28, 31, 30, 31, 30, 31, 31, 30, 31, 30, 31];

// Whether it is a leap year.
#[tactic(auto, unfolding(crate::specs::Dates::leap))]
fn leap_year(year: u64) -> bool
    ensures { result ≡ leap year }
{
    year % 400 == 0 || year % 100 != 0 && year % 4 == 0
}

// inner
#[tactic(auto, unfolding(crate::specs::Dates::year_days))]
pub fn year_days(year: u64) -> u64
    ensures { result ≡ year_days year }
{
    if leap_year(year) { 366 } else { 365 }
}

// The days of a month; 0 where it is none.
fn month_days(year: u64, month: u64) -> u64
    ensures { result ≡ month_days year month }
{
    if month == 2 && leap_year(year) {
        29
    } else if month < 13 {
        DAYS[month as usize]
    } else {
        0
    }
}

// inner: a real date of 1900-2099
#[tactic(auto, unfolding(crate::specs::Dates::is_date))]
pub fn is_date(day: u64, month: u64, year: u64) -> bool
    ensures { result ≡ is_date day month year }
{
    1900 <= year
        && year <= 2099
        && 1 <= month
        && month <= 12
        && 1 <= day
        && day <= month_days(year, month)
}

// inner: a day of 1900-2099
pub fn is_day(number: u64) -> bool
    ensures { result ≡ is_day number }
{
    number <= 73048
}

// inner: the days of the first k years from 1900 on
#[tactic(auto, using(crate::proofs::Real::years_step, crate::proofs::Real::year_most), unfolding(crate::specs::Dates::years_days))]
pub fn years_days(k: u64) -> u64
    requires { k ≤ 200 }
    ensures { result ≡ years_days k }
{
    let mut days: u64 = 0;
    for i in 0..k {
        days += year_days(1900 + i);
    }
    days
}

// inner: the days of the first k months of a year
#[tactic(auto, using(crate::proofs::Real::months_step, crate::proofs::Real::month_most), unfolding(crate::specs::Dates::months_days))]
pub fn months_days(year: u64, k: u64) -> u64
    requires { k ≤ 12 }
    ensures { result ≡ months_days year k }
{
    let mut days: u64 = 0;
    for i in 0..k {
        days += month_days(year, i + 1);
    }
    days
}

// inner: the number of a real date
#[tactic(auto, using(crate::proofs::Real::real, crate::proofs::Real::number_day), unfolding(crate::specs::Dates::day_number))]
pub fn day_number(day: u64, month: u64, year: u64) -> u64
    requires { is_date day month year ≡ true }
    ensures { result ≡ day_number day month year }
{
    years_days(year - 1900) + months_days(year, month - 1) + (day - 1)
}

// inner: the year of a day
#[tactic(auto, using(crate::proofs::Real::years_step, crate::proofs::Real::year_most, crate::proofs::Real::year_top), unfolding(crate::specs::Dates::years_days))]
pub fn year_of(number: u64) -> u64
    ensures { result ≡ year_of number }
{
    let mut begun: u64 = 0;
    for k in 0..199 {
        let next = begun + year_days(1900 + k);
        if number < next {
            return 1900 + k;
        }
        begun = next;
    }
    2099
}

// inner: how many days of its year lie before a day
#[tactic(auto, using(crate::proofs::Real::year_found, crate::proofs::Real::new_year_found, crate::proofs::Real::new_year_passed))]
pub fn since_new_year(number: u64) -> u64
    ensures { result ≡ number - new_year number }
{
    let year = year_of(number);
    number - years_days(year - 1900)
}

// inner: the month of a year in which a day lies that has `left` days of the year before it
#[tactic(auto, using(crate::proofs::Real::months_step, crate::proofs::Real::month_most), unfolding(crate::specs::Dates::months_days))]
pub fn month_in(year: u64, left: u64) -> u64
    ensures { result ≡ 1 + last_begun (months_days year) 11 left }
{
    let mut begun: u64 = 0;
    for k in 0..11 {
        let next = begun + month_days(year, k + 1);
        if left < next {
            return 1 + k;
        }
        begun = next;
    }
    12
}

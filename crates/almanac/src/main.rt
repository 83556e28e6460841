// The almanac of 1900 to 2099: one line for each year, from the calendar's calls. What it writes is held to `stdout`,
// which tests/almanac.py made from another calendar; that script says what the columns are.
#![tactic(auto)]

ghost use Rattle.std.specs.Prelude.{◌≤◌};

use std::io;

// The number of a date, 0 where it isn't real.
fn number(day: u64, month: u64, year: u64) -> u64 {
    calendar::day_of(day, month, year).unwrap_or(0)
}

// The number of a day's week, 0 where there is none.
fn week(n: u64) -> u64 {
    calendar::week_of(n).map_or(0, |w| w.number)
}

// Writes the line of a year.
fn line(rt: &impl Print, year: u64) -> io::Result<()>
    requires { (1900 ≤ year) × (year ≤ 2099) }
{
    let first = number(1, 1, year);
    let last = number(31, 12, year);
    let weekday = calendar::weekday_of(first).unwrap_or(0);
    let days = dates::year_days(year);
    let weeks = weeks::weeks_in(year);
    let first_week = week(first);
    let last_week = week(last);
    println!(rt; "{year} {first} {weekday} {days} {weeks} {first_week} {last_week}")
}

fn main(rt: HostRuntime) -> io::Result<()> {
    for year in 1900..=2099 {
        line(&rt, year)?;
    }
    Ok(())
}

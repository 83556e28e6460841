// The calendar: dates, day numbers, weekdays, ISO weeks, holidays and day signs.
// Here stand the public calls. Each takes any numbers and any list, and answers as its definition in specs/Answers.antt says:
// with a date that isn't real, and with a day past 73048, it is `None`, which is refusal 12. What is behind them is in the crates
// `dates`, `weeks` and `signs`, for other crates to call.
#![tactic(auto)]

ghost use Rattle.calendar.specs.Answers.{DayIs, DateIs, WeekdayIs, WeekIs, HolidayIs, FitsIs};

// A day's date.
#[derive(Clone, Copy)]
pub struct Date {
    pub day: u64,
    pub month: u64,
    pub year: u64,
}

// A day's ISO week, and whether it is odd.
#[derive(Clone, Copy)]
pub struct Week {
    pub number: u64,
    pub odd: bool,
}

// The day number of a date.
pub fn day_of(day: u64, month: u64, year: u64) -> Option<u64>
    ensures { DayIs day month year result }
{
    if dates::is_date(day, month, year) {
        Some(dates::day_number(day, month, year))
    } else {
        None
    }
}

// The date of a day number.
pub fn date_of(number: u64) -> Option<Date>
    ensures { DateIs number result }
{
    if dates::is_day(number) {
        let year = dates::year_of(number);
        let left = dates::since_new_year(number);
        let month = dates::month_in(year, left);
        Some(Date {
            day: left - dates::months_days(year, month - 1) + 1,
            month,
            year,
        })
    } else {
        None
    }
}

// The weekday of a day, from Monday 1 to Sunday 7.
pub fn weekday_of(number: u64) -> Option<u64>
    ensures { WeekdayIs number result }
{
    if dates::is_day(number) {
        Some(weeks::weekday(number))
    } else {
        None
    }
}

// The ISO week of a day, and whether it is odd.
pub fn week_of(number: u64) -> Option<Week>
    ensures { WeekIs number result }
{
    if dates::is_day(number) {
        Some(Week {
            number: weeks::week_number(number),
            odd: weeks::odd_week(number),
        })
    } else {
        None
    }
}

// Whether a day is in the list of holidays.
pub fn holiday(number: u64, holidays: &[u64]) -> Option<bool>
    ensures { HolidayIs number holidays.now result }
{
    if dates::is_day(number) {
        Some(signs::is_holiday(number, holidays))
    } else {
        None
    }
}

// Whether a day sign fits a day.
pub fn fits(sign: u8, number: u64, holidays: &[u64]) -> Option<bool>
    ensures { FitsIs sign number holidays.now result }
{
    if dates::is_day(number) {
        Some(signs::sign_fits(sign, number, holidays))
    } else {
        None
    }
}

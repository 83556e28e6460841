// The calendar's calls for C (document 01, "Days"). Each result's `number` is 0 for an answer and 12 for a refusal, and the other fields
// are then the answer's values, or 0 with a refusal. Lists are lent for the call alone; nothing is written.
ghost use Rattle.dayresults.specs.Results.{DayGives, DateGives, WeekdayGives};
ghost use Rattle.signresults.specs.Results.{WeekGives, HolidayGives, FitsGives};

use dayresults::{DateResult, DayResult, WeekdayResult};
use signresults::{FitsResult, HolidayResult, WeekResult};

// The day number of a date.
#[unsafe(no_mangle)]
pub extern "C" fn slovdrim_day(day: u64, month: u64, year: u64) -> DayResult
    ensures { DayGives day month year result }
{
    dayresults::day(day, month, year)
}

// The date of a day number.
#[unsafe(no_mangle)]
pub extern "C" fn slovdrim_date(number: u64) -> DateResult
    ensures { DateGives number result }
{
    dayresults::date(number)
}

// The weekday of a day, from Monday 1 to Sunday 7.
#[unsafe(no_mangle)]
pub extern "C" fn slovdrim_weekday(number: u64) -> WeekdayResult
    ensures { WeekdayGives number result }
{
    dayresults::weekday(number)
}

// The ISO week of a day, and 1 where it is odd.
#[unsafe(no_mangle)]
pub extern "C" fn slovdrim_week(number: u64) -> WeekResult
    ensures { WeekGives number result }
{
    signresults::week(number)
}

// 1 where a day is in the list of holidays.
#[unsafe(no_mangle)]
pub extern "C" fn slovdrim_holiday(number: u64, holidays: &[u64]) -> HolidayResult
    ensures { HolidayGives number holidays.now result }
{
    signresults::holiday(number, holidays)
}

// 1 where a day sign fits a day.
#[unsafe(no_mangle)]
pub extern "C" fn slovdrim_fits(sign: u8, number: u64, holidays: &[u64]) -> FitsResult
    ensures { FitsGives sign number holidays.now result }
{
    signresults::fits(sign, number, holidays)
}

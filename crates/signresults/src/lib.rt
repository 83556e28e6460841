// What C is handed of the calendar's calls on weeks, holidays and day signs. Each result's `number` is 0 for an answer and 12 for a refusal,
// and the other fields are then the answer's values, or 0 with a refusal.
#![tactic(auto)]

ghost use Rattle.signresults.specs.Results.{WeekGives, HolidayGives, FitsGives};

#[repr(C)]
#[derive(Clone, Copy)]
pub struct WeekResult {
    pub number: u64,
    pub week: u64,
    pub odd: u64,
}

#[repr(C)]
#[derive(Clone, Copy)]
pub struct HolidayResult {
    pub number: u64,
    pub holiday: u64,
}

#[repr(C)]
#[derive(Clone, Copy)]
pub struct FitsResult {
    pub number: u64,
    pub fits: u64,
}

// inner: the ISO week of a day, and 1 where it is odd.
pub fn week(number: u64) -> WeekResult
    ensures { WeekGives number result }
{
    match calendar::week_of(number) {
        Some(w) => WeekResult {
            number: 0,
            week: w.number,
            odd: u64::from(w.odd),
        },
        None => WeekResult {
            number: 12,
            week: 0,
            odd: 0,
        },
    }
}

// inner: 1 where a day is in the list of holidays.
pub fn holiday(number: u64, holidays: &[u64]) -> HolidayResult
    ensures { HolidayGives number holidays.now result }
{
    match calendar::holiday(number, holidays) {
        Some(yes) => HolidayResult {
            number: 0,
            holiday: u64::from(yes),
        },
        None => HolidayResult {
            number: 12,
            holiday: 0,
        },
    }
}

// inner: 1 where a day sign fits a day.
pub fn fits(sign: u8, number: u64, holidays: &[u64]) -> FitsResult
    ensures { FitsGives sign number holidays.now result }
{
    match calendar::fits(sign, number, holidays) {
        Some(yes) => FitsResult {
            number: 0,
            fits: u64::from(yes),
        },
        None => FitsResult {
            number: 12,
            fits: 0,
        },
    }
}

// What C is handed of the calendar's calls on dates and weekdays. Each result's `number` is 0 for an answer and 12 for a refusal, and the
// other fields are then the answer's values, or 0 with a refusal.
#![tactic(auto)]

ghost use Rattle.dayresults.specs.Results.{DayGives, DateGives, WeekdayGives};

#[repr(C)]
#[derive(Clone, Copy)]
pub struct DayResult {
    pub number: u64,
    pub day: u64,
}

#[repr(C)]
#[derive(Clone, Copy)]
pub struct DateResult {
    pub number: u64,
    pub day: u64,
    pub month: u64,
    pub year: u64,
}

#[repr(C)]
#[derive(Clone, Copy)]
pub struct WeekdayResult {
    pub number: u64,
    pub weekday: u64,
}

// inner: the day number of a date.
pub fn day(day: u64, month: u64, year: u64) -> DayResult
    ensures { DayGives day month year result }
{
    match calendar::day_of(day, month, year) {
        Some(n) => DayResult { number: 0, day: n },
        None => DayResult { number: 12, day: 0 },
    }
}

// inner: the date of a day number.
pub fn date(number: u64) -> DateResult
    ensures { DateGives number result }
{
    match calendar::date_of(number) {
        Some(d) => DateResult {
            number: 0,
            day: d.day,
            month: d.month,
            year: d.year,
        },
        None => DateResult {
            number: 12,
            day: 0,
            month: 0,
            year: 0,
        },
    }
}

// inner: the weekday of a day, from Monday 1 to Sunday 7.
pub fn weekday(number: u64) -> WeekdayResult
    ensures { WeekdayGives number result }
{
    match calendar::weekday_of(number) {
        Some(w) => WeekdayResult {
            number: 0,
            weekday: w,
        },
        None => WeekdayResult {
            number: 12,
            weekday: 0,
        },
    }
}

// Weekdays and ISO weeks. All of it is inner: what each function means is its definition in specs/Weeks.antt.
#![tactic(auto)]

ghost use Rattle.std.specs.Prelude.{◌≡◌, ◌≤◌};
ghost use Rattle.weeks.specs.Weeks.{weekday, week_of, odd_week, weeks_in};

// inner: from Monday 1 to Sunday 7
pub fn weekday(number: u64) -> u64
    ensures { result ≡ weekday number }
{
    1 + number % 7
}

// inner: by sevens from 1 January of the year that the week's Thursday is in, to that Thursday
pub fn week_number(number: u64) -> u64
    requires { number ≤ 73048 }
    ensures { result ≡ week_of number }
{
    let thursday = number - number % 7 + 3;
    let year = dates::year_of(thursday);
    (thursday - dates::years_days(year - 1900)) / 7 + 1
}

// inner
pub fn odd_week(number: u64) -> bool
    requires { number ≤ 73048 }
    ensures { result ≡ odd_week number }
{
    week_number(number) % 2 == 1
}

// inner: the year's Thursdays, as those before its end less those before its beginning
pub fn weeks_in(year: u64) -> u64
    requires { (1900 ≤ year) × (year ≤ 2099) }
    ensures { result ≡ weeks_in year }
{
    let begun = dates::years_days(year - 1900) + 3;
    (begun + dates::year_days(year)) / 7 - begun / 7
}

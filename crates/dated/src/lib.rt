// The rules inside one record that are on dates and on the marks of time codes, asked of texts. All of it is inner: what each function means is
// its definition in the crate field, specs/Rules.antt.
#![tactic(auto)]

ghost use Rattle.std.specs.Prelude.{◌≡◌, true, [], ◌∷◌, ◌+◌, ◌≤◌, length, take, drop};
ghost use Rattle.laws.specs.Tests.{pick, both};
ghost use Rattle.field.specs.Values.{is_empty, given, among, all_digits, value, is_date_text};
ghost use Rattle.field.specs.Rules.{asks, in_order, closes, is_time_mark, is_note_mark, dates_rule};
ghost use Rattle.dated.specs.Dates.{DateOrNone, ranked};

use field::{is_digits, is_one_of, value_of};

// The value of n digits at a place.
fn digits_at(t: &[u8], at: usize, n: usize) -> u64
    requires { (all_digits t.now ≡ true) × (at + n ≤ length t.now) × (n ≤ 18) }
    ensures { result ≡ value (take n (drop at t.now)) }
{
    value_of(&t[at..at + n])
}

// A date's digits as one number, year before month before day: it rises with the day number, and is had without counting days.
fn rank_of(t: &[u8]) -> u64
    requires { is_date_text t.now ≡ true }
    ensures { result ≡ ranked t.now }
{
    digits_at(t, 4, 4) * 10000 + digits_at(t, 2, 2) * 100 + digits_at(t, 0, 2)
}

// inner: a to-date needs a from-date and isn't before it
pub fn closes_in_order(from: &[u8], to: &[u8]) -> bool
    requires { DateOrNone from.now × DateOrNone to.now }
    ensures { result ≡ closes from.now to.now }
{
    to.is_empty() || !from.is_empty() && rank_of(from) <= rank_of(to)
}

// inner: the from-date isn't after the to-date, where both are given
pub fn in_order(from: &[u8], to: &[u8]) -> bool
    requires { DateOrNone from.now × DateOrNone to.now }
    ensures { result ≡ in_order from.now to.now }
{
    from.is_empty() || closes_in_order(from, to)
}

// Two digits 10-79.
fn is_time_mark(t: &[u8]) -> bool
    ensures { result ≡ is_time_mark t.now }
{
    is_digits(t, 2, 2) && matches!(value_of(t), 10..=79)
}

// inner: with a type the mark is two digits, without one it is a note's
pub fn mark_fits(kind: &[u8], mark: &[u8]) -> bool
    ensures { result ≡ pick (given kind.now) (is_time_mark mark.now) (is_note_mark mark.now) }
{
    if kind.is_empty() {
        is_one_of(mark, b"OmM[p")
    } else {
        is_time_mark(mark)
    }
}

// Types 1 and 4 need a from-date.
fn opens(kind: &[u8], from: &[u8]) -> bool
    ensures { result ≡ asks (among (49 ∷ 52 ∷ []) kind.now) (given from.now) }
{
    !is_one_of(kind, b"14") || !from.is_empty()
}

// Types 2 and 3 need it and no to-date.
fn is_one_day(kind: &[u8], from: &[u8], to: &[u8]) -> bool
    ensures { result ≡ asks (among (50 ∷ 51 ∷ []) kind.now) (both (given from.now) (is_empty to.now)) }
{
    !is_one_of(kind, b"23") || !from.is_empty() && to.is_empty()
}

// Types 5 and 6 have neither.
fn has_no_dates(kind: &[u8], from: &[u8], to: &[u8]) -> bool
    ensures { result ≡ asks (among (53 ∷ 54 ∷ []) kind.now) (both (is_empty from.now) (is_empty to.now)) }
{
    !is_one_of(kind, b"56") || from.is_empty() && to.is_empty()
}

// Types 7 and 8 have both.
fn has_both_dates(kind: &[u8], from: &[u8], to: &[u8]) -> bool
    ensures { result ≡ asks (among (55 ∷ 56 ∷ []) kind.now) (both (given from.now) (given to.now)) }
{
    !is_one_of(kind, b"78") || !from.is_empty() && !to.is_empty()
}

// inner: the dates that each type of a time code asks for
pub fn dates_fit(kind: &[u8], from: &[u8], to: &[u8]) -> bool
    ensures { result ≡ dates_rule kind.now from.now to.now }
{
    opens(kind, from)
        && is_one_day(kind, from, to)
        && has_no_dates(kind, from, to)
        && has_both_dates(kind, from, to)
}

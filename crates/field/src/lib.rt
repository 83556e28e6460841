// The kinds of fields, and the values of digits: document 01, "Fields". What a field of each kind may hold is tried in the crate `admits`; which field is of which
// kind stands in the crate `kinds`.
#![tactic(auto)]

mod values;

pub use values::{day_of, is_byte, is_date, is_digits, is_one_of, is_time, minute_of, value_of};

// What a field may hold.
#[derive(Clone, Copy)]
pub enum Kind {
    // So many digits, at least and at most.
    Digits(usize, usize),
    // The same, or empty.
    MaybeDigits(usize, usize),
    // A text of so many bytes, at least and at most.
    Text(usize, usize),
    // DDMMRRRR, a real Gregorian date of 1900-2099.
    Date,
    // The same, or empty.
    MaybeDate,
    // HHMM, 0000-2359, or `|`, `<`, or empty.
    Time,
    // One of the thirty signs.
    Sign,
    // The kind of a firm: 1 or 2.
    Firm,
    // The type of a line.
    LineType,
    // The type of a time code, 1 to 8, or empty.
    CodeType,
    // The type of an alternative carrier's weeks, 5 or 6, or empty.
    WeekType,
    // No such field.
    None,
}

// Two stops of a sale: which is passed first, whether one can board at the first and leave at the second, and at what times.
#![tactic(auto)]

ghost use Rattle.std.specs.Prelude.{◌≡◌};
ghost use Rattle.laws.specs.Tests.{one_of};
ghost use Rattle.boarding.specs.Answers.{numbered_sold};
ghost use Rattle.boarding.specs.Plain.{passed_first, left_of, sold_of};

// The answer on a batch that stands.
#[derive(Clone, Copy)]
pub enum Sold {
    // 12: the date isn't real or not in 1900-2099.
    NoDate,
    // 13: there is no such trip.
    NoTrip,
    // 14: a tariff number isn't among its records.
    NoStop,
    // 15: it doesn't run that day.
    NotThatDay,
    // 16: the first stop isn't before the second in travel order.
    NotBefore,
    // 17: one can't board at the first stop.
    NoBoarding,
    // 18: one can't leave at the second.
    NoLeaving,
    // 19: both stops have `§`.
    OneSection,
    // Departure at the first stop and arrival at the second, in minutes of the day.
    At(u64, u64),
}

// What a stop is to one who boards or leaves there.
#[derive(Clone, Copy)]
pub struct Served {
    // Whether there is a departure, and its minute.
    pub departs: bool,
    pub departure: u64,
    // The same of an arrival.
    pub arrives: bool,
    pub arrival: u64,
    // Whether a sign forbids to board, to leave; whether it has `§`.
    pub no_boarding: bool,
    pub no_leaving: bool,
    pub section: bool,
}

// inner: one of the two is so
pub fn one_of(a: bool, b: bool) -> bool
    ensures { result ≡ one_of a b }
{
    a || b
}

// inner: whether the first of two tariff numbers is passed before the second
#[tactic(auto, unfolding(crate::specs::Plain::passed_first))]
pub fn passed_first(trip: u64, from: u64, to: u64) -> bool
    ensures { result ≡ passed_first trip from to }
{
    if trip % 2 == 1 {
        return from < to;
    }
    to < from
}

// 18 and 19, and the answer, for a first stop where one can board.
#[tactic(auto, unfolding(crate::specs::Plain::left_of, crate::specs::Answers::numbered_sold))]
fn left_at(first: Served, second: Served) -> Sold
    ensures { numbered_sold result ≡ left_of first second }
{
    if !(second.arrives || second.departs) || second.no_leaving {
        return Sold::NoLeaving;
    }
    if first.section && second.section {
        return Sold::OneSection;
    }
    if second.arrives {
        return Sold::At(first.departure, second.arrival);
    }
    Sold::At(first.departure, second.departure)
}

// inner: 17 to 19, and the answer
#[tactic(auto, unfolding(crate::specs::Plain::sold_of, crate::specs::Answers::numbered_sold))]
pub fn boarded_at(first: Served, second: Served) -> Sold
    ensures { numbered_sold result ≡ sold_of first second }
{
    if !first.departs || first.no_boarding {
        return Sold::NoBoarding;
    }
    left_at(first, second)
}

// What the calls on a batch come back with: what the check comes to, whether a trip runs, a trip's stop, a sale.
#![tactic(auto)]

use boarding::Sold;
use counts::Counts;
use fault::Fault;

// What the check of a batch comes to.
#[derive(Clone, Copy)]
pub enum Verdict {
    // It keeps every rule.
    Accepted(Counts),
    // Its first fault.
    Refused(Fault),
}

// Whether a trip runs on a day.
#[derive(Clone, Copy)]
pub enum Running {
    // The batch's own refusal.
    Refused(Fault),
    // The day is none of the calendar's.
    NoDay,
    // There is no such trip.
    NoTrip,
    // It does.
    Yes,
    // It doesn't.
    Not,
}

// A trip's stop, in numbers: 1 for yes and 0 for no, minutes of the day or 0, signs as a sum, and how many stops the trip has.
#[derive(Clone, Copy)]
pub struct Halt {
    pub tariff: u64,
    pub stop: u64,
    pub arrives: u64,
    pub arrival: u64,
    pub departs: u64,
    pub departure: u64,
    pub signs: u64,
    pub last: u64,
    pub stops: u64,
}

// A trip's nth stop.
#[derive(Clone, Copy)]
pub enum Stop {
    // The batch's own refusal; or 20, the trip has no such stop.
    Refused(Fault),
    // There is no such trip.
    NoTrip,
    // The stop.
    Is(Halt),
}

// A sale, on any batch.
#[derive(Clone, Copy)]
pub enum Sale {
    // The batch's own refusal.
    Refused(Fault),
    // What is said of a batch that stands.
    Told(Sold),
}

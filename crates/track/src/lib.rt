// A trip's stops in travel order, one after another: refusal 11 by one pass that never looks ahead.
#![tactic(auto)]

ghost use Rattle.std.specs.Prelude.{◌≡◌, eqb, leb};
ghost use Rattle.laws.specs.Tests.{pick};
ghost use Rattle.track.specs.Track.{set_out, timed_on, untimed_on, track_on, time_on, length_on, course_ends};

// What a record says.
#[derive(Clone, Copy)]
pub struct Visit {
    // Whether it has an arrival, and its minute of the day.
    pub arrives: bool,
    pub arrival: u64,
    // The same of a departure.
    pub departs: bool,
    pub departure: u64,
    // Whether `|` or `<` stands in it.
    pub passes: bool,
    // Whether both its time fields are empty.
    pub blank: bool,
    // Whether kilometres are given, and how many.
    pub measured: bool,
    pub kilometre: u64,
}

// How the places of the records have been so far.
#[derive(Clone, Copy)]
pub struct Track {
    // How many had a time: 0, 1, or 2 for more.
    pub seen: u64,
    // Whether the last of them had a departure, an arrival.
    pub departs: bool,
    pub arrives: bool,
    // Whether `|` or `<` has stood behind it, or a record with both time fields empty.
    pub passed: bool,
    pub blank: bool,
    // Whether nothing was wrong.
    pub fits: bool,
}

// inner: nothing has come yet
#[tactic(auto, unfolding(crate::specs::Track::set_out))]
pub fn set_out() -> Track
    ensures { result ≡ set_out }
{
    Track {
        seen: 0,
        departs: false,
        arrives: false,
        passed: false,
        blank: false,
        fits: true,
    }
}

// Whether a record with a time may come now.
#[tactic(auto, unfolding(crate::specs::Track::timed_on))]
fn may_come(c: Track, v: Visit) -> bool
    ensures { result ≡ (timed_on c v).fits }
{
    if c.seen == 0 {
        c.fits && v.departs && !v.arrives && v.kilometre == 0
    } else {
        c.fits && c.departs && !c.blank
    }
}

// How many had a time, with one more: 1, or 2 for more.
fn one_more(seen: u64) -> u64
    ensures { result ≡ pick (eqb seen 0) 1 2 }
{
    if seen == 0 { 1 } else { 2 }
}

// A record with a time comes.
#[tactic(auto, unfolding(crate::specs::Track::timed_on))]
fn timed_on(c: Track, v: Visit) -> Track
    ensures { result ≡ timed_on c v }
{
    Track {
        seen: one_more(c.seen),
        departs: v.departs,
        arrives: v.arrives,
        passed: false,
        blank: false,
        fits: may_come(c, v),
    }
}

// A record without one comes.
#[tactic(auto, unfolding(crate::specs::Track::untimed_on))]
fn untimed_on(c: Track, v: Visit) -> Track
    ensures { result ≡ untimed_on c v }
{
    if c.seen == 0 {
        return Track {
            fits: c.fits && !v.passes,
            ..c
        };
    }
    Track {
        passed: c.passed || v.passes,
        blank: c.blank || v.blank,
        ..c
    }
}

// inner: a record comes
#[tactic(auto, unfolding(crate::specs::Track::track_on))]
pub fn track_on(c: Track, v: Visit) -> Track
    ensures { result ≡ track_on c v }
{
    if v.arrives || v.departs {
        return timed_on(c, v);
    }
    untimed_on(c, v)
}

// The last of numbers that may not fall: the next, if it is given, or `fallen` if it fell.
fn risen(last: u64, given: bool, next: u64, fallen: u64) -> u64
    ensures { result ≡ pick given (pick (leb last next) next fallen) last }
{
    if !given {
        return last;
    }
    if last <= next { next } else { fallen }
}

// inner: the last minute behind a record, arrival before departure, or 1440 if it fell
#[tactic(auto, unfolding(crate::specs::Track::time_on, crate::specs::Track::minute_on))]
pub fn time_on(last: u64, v: Visit) -> u64
    ensures { result ≡ time_on last v }
{
    let arrived = risen(last, v.arrives, v.arrival, 1440);
    risen(arrived, v.departs, v.departure, 1440)
}

// inner: the last kilometre behind a record, or 1000000000 if it fell
#[tactic(auto, unfolding(crate::specs::Track::length_on))]
pub fn length_on(last: u64, v: Visit) -> u64
    ensures { result ≡ length_on last v }
{
    risen(last, v.measured, v.kilometre, 1000000000)
}

// inner: whether nothing was wrong, once all records have come
#[tactic(auto, unfolding(crate::specs::Track::course_ends, crate::specs::Track::track_ends))]
pub fn course_ends(c: Track, time: u64, length: u64) -> bool
    ensures { result ≡ course_ends c time length }
{
    c.fits && c.seen == 2 && c.arrives && !c.passed && time < 1440 && length < 1000000000
}

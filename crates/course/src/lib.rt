// What a record of a trip's stops says, for the pass over them in `track`; and that this pass is document 01's rule.
#![tactic(auto)]

ghost use Rattle.std.specs.Prelude.{◌≡◌, true, ◌<◌};
ghost use Rattle.field.specs.Kinds.{admits};
ghost use Rattle.field.specs.Names.{trip_stops_file};
ghost use Rattle.field.specs.Values.{is_time};
ghost use Rattle.field.specs.declared.Kind.{Kind};
ghost use Rattle.rules.specs.Texts.{texts, Kinded};
ghost use Rattle.trip.specs.Stops.{passes_in};
ghost use Rattle.course.specs.Course.{minute_or, visit_of};

use field::{minute_of, value_of};
use track::Visit;
use walk::{CutRecord, part};

// Whether a time field holds a time: no other text of its kind has four bytes.
fn is_timed(t: &[u8]) -> bool
    requires { admits Kind.Time t.now ≡ true }
    ensures { result ≡ is_time t.now }
{
    t.len() == 4
}

// Its minute of the day; 0 if it holds none.
fn minute_or(t: &[u8]) -> u64
    requires { admits Kind.Time t.now ≡ true }
    ensures { (result ≡ minute_or t.now) × (result < 1440) }
{
    if is_timed(t) { minute_of(t) } else { 0 }
}

// inner: what the record says
pub fn visit_of(row: CutRecord) -> Visit
    requires { Kinded trip_stops_file row.bytes.now row.places.now }
    ensures { result ≡ visit_of (texts trip_stops_file row.entry.bytes.now row.entry.places.now) }
{
    let a = part(row, 8);
    let d = part(row, 9);
    let k = part(row, 7);
    Visit {
        arrives: is_timed(a),
        arrival: minute_or(a),
        departs: is_timed(d),
        departure: minute_or(d),
        passes: stands_in(a, d),
        blank: a.is_empty() && d.is_empty(),
        measured: !k.is_empty(),
        kilometre: value_of(k),
    }
}

// Whether `|` or `<` stands in one of two time fields: no other text of their kind has one byte.
fn stands_in(a: &[u8], d: &[u8]) -> bool
    requires { (admits Kind.Time a.now ≡ true) × (admits Kind.Time d.now ≡ true) }
    ensures { result ≡ passes_in a.now d.now }
{
    a.len() == 1 || d.len() == 1
}

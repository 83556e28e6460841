// A trip's nth stop in travel order, on a batch that stands: its tariff number, its stop, its times, its signs.
#![tactic(auto)]

ghost use Rattle.std.specs.Prelude.{◌≡◌, not, ◌<◌, length, drop};
ghost use Rattle.laws.specs.Tests.{pick, both, one_of};
ghost use Rattle.file.specs.Files.{fields_of};
ghost use Rattle.file.specs.Records.{records_in};
ghost use Rattle.field.specs.Names.{trip_stops_file};
ghost use Rattle.keys.specs.Keys.{none};
ghost use Rattle.keys.specs.KeyFiles.{PlaceIn};
ghost use Rattle.keys.specs.Ranks.{record_at};
ghost use Rattle.link.specs.Signs.{codes_file};
ghost use Rattle.rules.specs.Texts.{texts, Kinded};
ghost use Rattle.coded.specs.Left.{left_at};
ghost use Rattle.coded.specs.Ready.{Ready};
ghost use Rattle.trail.specs.Lists.{some};
ghost use Rattle.trip.specs.Stage.{trips_file};
ghost use Rattle.trip.specs.Stops.{timed};
ghost use Rattle.calling.specs.Calling.{travelled, goes_up};
ghost use Rattle.marks.specs.Marks.{plain_signs};
ghost use Rattle.outcome.specs.Answers.{halt_numbers, numbered_stop};
ghost use Rattle.stopping.specs.Halt.{sign_sum};
ghost use Rattle.stopping.specs.Plain.{plain_halt, plain_nth, plain_stop};

use byway::by_two;
use fault::Fault;
use field::value_of;
use file::Refusal;
use halts::{count_stops, nth_stop, timed_behind};
use lookup::Paths;
use marks::stop_has;
use outcome::{Halt, Stop};
use walk::{CutRecord, cut, part};

// So much if it is so, else 0.
fn weight(so: bool, much: u64) -> u64
    ensures { result ≡ pick so much 0 }
{
    if so { much } else { 0 }
}

// The signs of a trip's stop, whose record was cut, as a sum.
fn sign_sum(row: CutRecord, f7: &[u8], f3: &[u8], paths: Paths) -> u64
    requires { Kinded trip_stops_file row.bytes.now row.places.now × Ready 7 f7.now paths.order.now paths.ways.now × Ready codes_file f3.now paths.order.now paths.ways.now }
    ensures { result ≡ sign_sum (plain_signs (records_in (fields_of codes_file) f3.now) (records_in (fields_of 7) f7.now) (texts trip_stops_file row.entry.bytes.now row.entry.places.now)) }
{
    let a = weight(stop_has(b'(', row, f7, f3, paths), 1);
    let b = weight(stop_has(b')', row, f7, f3, paths), 2);
    let c = weight(stop_has(b'x', row, f7, f3, paths), 4);
    let d = weight(stop_has(0xA7, row, f7, f3, paths), 8);
    let e = weight(stop_has(b'$', row, f7, f3, paths), 16);
    a + b + c + d + e
}

// Whether a record with a time is the last such.
fn is_last(v: track::Visit, more: bool) -> bool
    ensures { result ≡ both (one_of v.arrives v.departs) (not more) }
{
    (v.arrives || v.departs) && !more
}

// inner: the stop whose record starts at a place of Zasspoje
pub fn halt_at(
    at: usize,
    line: u64,
    trip: u64,
    f3: &[u8],
    f7: &[u8],
    f8: &[u8],
    paths: Paths,
) -> Halt
    requires { PlaceIn trip_stops_file f8.now at × (at < length f8.now) × (line < none) × (trip < none) × Ready codes_file f3.now paths.order.now paths.ways.now × Ready 7 f7.now paths.order.now paths.ways.now × Ready trip_stops_file f8.now paths.order.now paths.ways.now }
    ensures { halt_numbers result ≡ plain_halt (records_in (fields_of codes_file) f3.now) (records_in (fields_of 7) f7.now) (record_at trip_stops_file f8.now at) (some timed (drop 1 (left_at trip_stops_file f8.now (goes_up trip) line trip at))) (length (travelled line trip (records_in (fields_of trip_stops_file) f8.now))) }
{
    let mut places: [usize; 14] = [0; 14];
    cut(f8, at, 10, &mut places);
    let row = CutRecord {
        bytes: f8,
        places: &places,
    };
    let v = course::visit_of(row);
    let more = timed_behind(at, f8, paths, line, trip);
    Halt {
        tariff: value_of(part(row, 2)),
        stop: value_of(part(row, 3)),
        arrives: weight(v.arrives, 1),
        arrival: v.arrival,
        departs: weight(v.departs, 1),
        departure: v.departure,
        signs: sign_sum(row, f7, f3, paths),
        last: weight(is_last(v, more), 1),
        stops: count_stops(f8, paths, line, trip),
    }
}

// The nth stop of a trip that there is.
fn answer_halt(n: u64, line: u64, trip: u64, f3: &[u8], f7: &[u8], f8: &[u8], paths: Paths) -> Stop
    requires { (line < none) × (trip < none) × Ready codes_file f3.now paths.order.now paths.ways.now × Ready 7 f7.now paths.order.now paths.ways.now × Ready trip_stops_file f8.now paths.order.now paths.ways.now }
    ensures { numbered_stop result ≡ plain_nth (records_in (fields_of codes_file) f3.now) (records_in (fields_of 7) f7.now) (records_in (fields_of trip_stops_file) f8.now) line trip n }
{
    if n == 0 {
        return Stop::Refused(Fault::File(Refusal::NoSuch));
    }
    let at = nth_stop(n - 1, f8, paths, line, trip);
    if at >= f8.len() {
        return Stop::Refused(Fault::File(Refusal::NoSuch));
    }
    Stop::Is(halt_at(at, line, trip, f3, f7, f8, paths))
}

// inner: the nth stop of the trip, if there is one
pub fn answer_stop(
    n: u64,
    line: u64,
    trip: u64,
    f3: &[u8],
    f6: &[u8],
    f7: &[u8],
    f8: &[u8],
    paths: Paths,
) -> Stop
    requires { Ready codes_file f3.now paths.order.now paths.ways.now × Ready trips_file f6.now paths.order.now paths.ways.now × Ready 7 f7.now paths.order.now paths.ways.now × Ready trip_stops_file f8.now paths.order.now paths.ways.now }
    ensures { numbered_stop result ≡ plain_stop (records_in (fields_of codes_file) f3.now) (records_in (fields_of trips_file) f6.now) (records_in (fields_of 7) f7.now) (records_in (fields_of trip_stops_file) f8.now) line trip n }
{
    if line >= 1000000000 || trip >= 1000000000 {
        return Stop::NoTrip;
    }
    match by_two(6, f6, paths, line, trip) {
        Some(_) => answer_halt(n, line, trip, f3, f7, f8, paths),
        None => Stop::NoTrip,
    }
}

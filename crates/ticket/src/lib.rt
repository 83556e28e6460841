// The sale question on a batch that stands: may this trip be sold from this stop to that one on this date, and at what times?
#![tactic(auto)]

ghost use Rattle.std.specs.Prelude.{◌≡◌, true, [], ◌∷◌, ◌≤◌, ◌<◌, length};
ghost use Rattle.file.specs.Files.{fields_of};
ghost use Rattle.file.specs.Records.{records_in};
ghost use Rattle.field.specs.Names.{lines_file, trip_stops_file, time_codes_file};
ghost use Rattle.keys.specs.Keys.{none, has};
ghost use Rattle.keys.specs.KeyFiles.{PlaceIn};
ghost use Rattle.keys.specs.Ranks.{record_at};
ghost use Rattle.link.specs.Signs.{codes_file};
ghost use Rattle.coded.specs.Ready.{Ready};
ghost use Rattle.trip.specs.Stage.{trips_file};
ghost use Rattle.boarding.specs.Answers.{numbered_sold};
ghost use Rattle.ticket.specs.Plain.{ServedBy, placed_between, placed_to, plain_trip, plain_day, plain_sale, LinesMet};

use boarding::{Served, Sold, boarded_at, one_of, passed_first};
use byway::by_two;
use calendar::day_of;
use lookup::Paths;
use marks::stop_marks;
use roll::stop_of;
use tripruns::trip_runs;
use walk::{CutRecord, cut};

// The stop whose record starts at a place of Zasspoje.
fn served_at(at: usize, f3: &[u8], f7: &[u8], f8: &[u8], paths: Paths) -> Served
    requires { PlaceIn trip_stops_file f8.now at × (at < length f8.now) × Ready codes_file f3.now paths.order.now paths.ways.now × Ready 7 f7.now paths.order.now paths.ways.now × Ready trip_stops_file f8.now paths.order.now paths.ways.now }
    ensures { ServedBy (records_in (fields_of codes_file) f3.now) (records_in (fields_of 7) f7.now) (record_at trip_stops_file f8.now at) result }
{
    let mut places: [usize; 14] = [0; 14];
    cut(f8, at, 10, &mut places);
    let row = CutRecord {
        bytes: f8,
        places: &places,
    };
    let v = course::visit_of(row);
    let m = stop_marks(row, f7, f3, paths);
    Served {
        departs: v.departs,
        departure: v.departure,
        arrives: v.arrives,
        arrival: v.arrival,
        no_boarding: one_of(m.opening, m.dollar),
        no_leaving: one_of(m.closing, m.dollar),
        section: m.section,
    }
}

// 16 to 19, for two stops of the trip by their places in Zasspoje.
fn between(
    a: usize,
    b: usize,
    trip: u64,
    from: u64,
    to: u64,
    f3: &[u8],
    f7: &[u8],
    f8: &[u8],
    paths: Paths,
) -> Sold
    requires { PlaceIn trip_stops_file f8.now a × (a < length f8.now) × PlaceIn trip_stops_file f8.now b × (b < length f8.now) × Ready codes_file f3.now paths.order.now paths.ways.now × Ready 7 f7.now paths.order.now paths.ways.now × Ready trip_stops_file f8.now paths.order.now paths.ways.now }
    ensures { numbered_sold result ≡ placed_between (records_in (fields_of codes_file) f3.now) (records_in (fields_of 7) f7.now) (record_at trip_stops_file f8.now a) (record_at trip_stops_file f8.now b) trip from to }
{
    if !passed_first(trip, from, to) {
        return Sold::NotBefore;
    }
    let first = served_at(a, f3, f7, f8, paths);
    let second = served_at(b, f3, f7, f8, paths);
    boarded_at(first, second)
}

// 14 and 15 on, for a first stop that was found.
fn to_stop(
    a: usize,
    at: usize,
    line: u64,
    trip: u64,
    d: u64,
    from: u64,
    to: u64,
    f3: &[u8],
    f5: &[u8],
    f6: &[u8],
    f7: &[u8],
    f8: &[u8],
    f10: &[u8],
    paths: Paths,
    holidays: &[u64],
) -> Sold
    requires { PlaceIn trip_stops_file f8.now a × (a < length f8.now) × PlaceIn trips_file f6.now at × (at < length f6.now) × (line < none) × (trip < none) × (d ≤ 73048) × (has lines_file (line ∷ []) (records_in (fields_of lines_file) f5.now) ≡ true) × Ready codes_file f3.now paths.order.now paths.ways.now × Ready lines_file f5.now paths.order.now paths.ways.now × Ready trips_file f6.now paths.order.now paths.ways.now × Ready 7 f7.now paths.order.now paths.ways.now × Ready trip_stops_file f8.now paths.order.now paths.ways.now × Ready time_codes_file f10.now paths.order.now paths.ways.now }
    ensures { numbered_sold result ≡ placed_to (records_in (fields_of codes_file) f3.now) (records_in (fields_of lines_file) f5.now) (records_in (fields_of 7) f7.now) (records_in (fields_of trip_stops_file) f8.now) (records_in (fields_of time_codes_file) f10.now) (record_at trip_stops_file f8.now a) line trip (record_at trips_file f6.now at) d from to holidays.now }
{
    if to >= 1000000000 {
        return Sold::NoStop;
    }
    match stop_of(to, f8, paths, a, line, trip) {
        Some(b) => {
            if !trip_runs(at, line, trip, f3, f5, f6, f10, paths, d, holidays) {
                return Sold::NotThatDay;
            }
            between(a, b, trip, from, to, f3, f7, f8, paths)
        }
        None => Sold::NoStop,
    }
}

// 14 on, for a trip by its place in Spoje.
fn of_trip(
    at: usize,
    line: u64,
    trip: u64,
    d: u64,
    from: u64,
    to: u64,
    f3: &[u8],
    f5: &[u8],
    f6: &[u8],
    f7: &[u8],
    f8: &[u8],
    f10: &[u8],
    paths: Paths,
    holidays: &[u64],
) -> Sold
    requires { PlaceIn trips_file f6.now at × (at < length f6.now) × (line < none) × (trip < none) × (d ≤ 73048) × (has lines_file (line ∷ []) (records_in (fields_of lines_file) f5.now) ≡ true) × Ready codes_file f3.now paths.order.now paths.ways.now × Ready lines_file f5.now paths.order.now paths.ways.now × Ready trips_file f6.now paths.order.now paths.ways.now × Ready 7 f7.now paths.order.now paths.ways.now × Ready trip_stops_file f8.now paths.order.now paths.ways.now × Ready time_codes_file f10.now paths.order.now paths.ways.now }
    ensures { numbered_sold result ≡ plain_trip (records_in (fields_of codes_file) f3.now) (records_in (fields_of lines_file) f5.now) (records_in (fields_of trips_file) f6.now) (records_in (fields_of 7) f7.now) (records_in (fields_of trip_stops_file) f8.now) (records_in (fields_of time_codes_file) f10.now) line trip (record_at trips_file f6.now at) d from to holidays.now }
{
    if from >= 1000000000 {
        return Sold::NoStop;
    }
    match stop_of(from, f8, paths, 0, line, trip) {
        Some(a) => to_stop(
            a, at, line, trip, d, from, to, f3, f5, f6, f7, f8, f10, paths, holidays,
        ),
        None => Sold::NoStop,
    }
}

// 13 on, for a day of the calendar.
fn on_day(
    line: u64,
    trip: u64,
    d: u64,
    from: u64,
    to: u64,
    f3: &[u8],
    f5: &[u8],
    f6: &[u8],
    f7: &[u8],
    f8: &[u8],
    f10: &[u8],
    paths: Paths,
    holidays: &[u64],
) -> Sold
    requires { (d ≤ 73048) × LinesMet (records_in (fields_of lines_file) f5.now) (records_in (fields_of trips_file) f6.now) × Ready codes_file f3.now paths.order.now paths.ways.now × Ready lines_file f5.now paths.order.now paths.ways.now × Ready trips_file f6.now paths.order.now paths.ways.now × Ready 7 f7.now paths.order.now paths.ways.now × Ready trip_stops_file f8.now paths.order.now paths.ways.now × Ready time_codes_file f10.now paths.order.now paths.ways.now }
    ensures { numbered_sold result ≡ plain_day (records_in (fields_of codes_file) f3.now) (records_in (fields_of lines_file) f5.now) (records_in (fields_of trips_file) f6.now) (records_in (fields_of 7) f7.now) (records_in (fields_of trip_stops_file) f8.now) (records_in (fields_of time_codes_file) f10.now) line trip d from to holidays.now }
{
    if line >= 1000000000 || trip >= 1000000000 {
        return Sold::NoTrip;
    }
    match by_two(6, f6, paths, line, trip) {
        Some(at) => of_trip(
            at, line, trip, d, from, to, f3, f5, f6, f7, f8, f10, paths, holidays,
        ),
        None => Sold::NoTrip,
    }
}

// inner: the answer on a batch that stands, whose ways were made out; asked as often as one likes
pub fn sale_on(
    line: u64,
    trip: u64,
    day: u64,
    month: u64,
    year: u64,
    from: u64,
    to: u64,
    f3: &[u8],
    f5: &[u8],
    f6: &[u8],
    f7: &[u8],
    f8: &[u8],
    f10: &[u8],
    paths: Paths,
    holidays: &[u64],
) -> Sold
    requires { LinesMet (records_in (fields_of lines_file) f5.now) (records_in (fields_of trips_file) f6.now) × Ready codes_file f3.now paths.order.now paths.ways.now × Ready lines_file f5.now paths.order.now paths.ways.now × Ready trips_file f6.now paths.order.now paths.ways.now × Ready 7 f7.now paths.order.now paths.ways.now × Ready trip_stops_file f8.now paths.order.now paths.ways.now × Ready time_codes_file f10.now paths.order.now paths.ways.now }
    ensures { numbered_sold result ≡ plain_sale (records_in (fields_of codes_file) f3.now) (records_in (fields_of lines_file) f5.now) (records_in (fields_of trips_file) f6.now) (records_in (fields_of 7) f7.now) (records_in (fields_of trip_stops_file) f8.now) (records_in (fields_of time_codes_file) f10.now) line trip day month year from to holidays.now }
{
    match day_of(day, month, year) {
        Some(d) => on_day(
            line, trip, d, from, to, f3, f5, f6, f7, f8, f10, paths, holidays,
        ),
        None => Sold::NoDate,
    }
}

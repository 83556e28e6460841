// The first trip of a batch, in Spoje order, whose days or stops are wrong: refusals 10 and 11.
#![tactic(auto)]

ghost use Rattle.std.specs.Prelude.{◌≡◌, true, []};
ghost use Rattle.laws.specs.Numbered.{answered};
ghost use Rattle.file.specs.Files.{fields_of};
ghost use Rattle.file.specs.Records.{records_in};
ghost use Rattle.field.specs.Names.{time_codes_file, trip_stops_file};
ghost use Rattle.link.specs.Signs.{codes_file};
ghost use Rattle.coded.specs.Ready.{Ready};
ghost use Rattle.trip.specs.Stage.{trips_file};
ghost use Rattle.trips.specs.Answers.{numbered_timed};
ghost use Rattle.trips.specs.Plain.{plain_from};

use ahead::{list_goes_on, walk_goes_on};
use lookup::{Paths, index_of};
use tripfault::{Tried, none_tried, trip_fault};
use walk::{CutRecord, cut};

// What the stage finds.
#[derive(Clone, Copy)]
pub enum Timed {
    // Nothing.
    Sound,
    // The record of a trip whose days are wrong.
    Days(u64),
    // The record of a trip whose stops are wrong.
    Stops(u64),
}

// The first trip whose days or stops are wrong, gone through in the order of the records of Spoje.
fn first_wrong(f3: &[u8], f6: &[u8], f8: &[u8], f10: &[u8], paths: Paths) -> Timed
    requires { Ready codes_file f3.now paths.order.now paths.ways.now × Ready trips_file f6.now paths.order.now paths.ways.now × Ready trip_stops_file f8.now paths.order.now paths.ways.now × Ready time_codes_file f10.now paths.order.now paths.ways.now }
    ensures { numbered_timed result ≡ plain_from (records_in (fields_of codes_file) f3.now) (records_in (fields_of trip_stops_file) f8.now) (records_in (fields_of time_codes_file) f10.now) 1 (records_in (fields_of trips_file) f6.now) }
{
    let mut places: [usize; 14] = [0; 14];
    let mut k: u64 = 1;
    let mut at: usize = 0;
    let mut tried = none_tried();
    while at < f6.len() {
        let next = cut(f6, at, 12, &mut places);
        let row = CutRecord {
            bytes: f6,
            places: &places,
        };
        tried = trip_fault(row, f3, f8, f10, paths, tried);
        if tried.fault == 10 {
            return Timed::Days(k);
        }
        if tried.fault == 11 {
            return Timed::Stops(k);
        }
        k += 1;
        at = next;
    }
    Timed::Sound
}

// Looks at the trips, stops and time codes that come next by their indexes, where there are some; nothing rests on it.
fn goes_on(
    f6: &[u8],
    trips: &[u32],
    i: usize,
    f8: &[u8],
    stops: &[u32],
    f10: &[u8],
    codes: &[u32],
    tried: Tried,
) -> bool {
    list_goes_on(f6, trips, i)
        && walk_goes_on(f8, stops, tried.stop_entry)
        && walk_goes_on(f10, codes, tried.code_entry)
}

// Whether nothing is wrong with any trip, gone through in the order of the index of Spoje, where a trip's stops and time codes stand beside those of
// the trip before; false too where there is no index.
fn none_wrong(f3: &[u8], f6: &[u8], f8: &[u8], f10: &[u8], paths: Paths) -> bool
    requires { Ready codes_file f3.now paths.order.now paths.ways.now × Ready trips_file f6.now paths.order.now paths.ways.now × Ready trip_stops_file f8.now paths.order.now paths.ways.now × Ready time_codes_file f10.now paths.order.now paths.ways.now }
    ensures { result ≡ true → plain_from (records_in (fields_of codes_file) f3.now) (records_in (fields_of trip_stops_file) f8.now) (records_in (fields_of time_codes_file) f10.now) 1 (records_in (fields_of trips_file) f6.now) ≡ answered [] }
{
    let part = index_of(paths, 6);
    if part.is_empty() {
        return false;
    }
    let stops = index_of(paths, 8);
    let codes = index_of(paths, 10);
    let mut places: [usize; 14] = [0; 14];
    let mut tried = none_tried();
    for (i, at) in part.iter().enumerate() {
        if !goes_on(f6, part, i, f8, stops, f10, codes, tried) {
            return false;
        }
        cut(f6, *at as usize, 12, &mut places);
        let row = CutRecord {
            bytes: f6,
            places: &places,
        };
        tried = trip_fault(row, f3, f8, f10, paths, tried);
        if tried.fault != 0 {
            return false;
        }
    }
    true
}

// inner: the first trip whose days or stops are wrong, 10 before 11 trip by trip. Of the batch's files, Pevnykod, Spoje, Zasspoje and Caskody are
// asked for.
pub fn trips_fault(f3: &[u8], f6: &[u8], f8: &[u8], f10: &[u8], paths: Paths) -> Timed
    requires { Ready codes_file f3.now paths.order.now paths.ways.now × Ready trips_file f6.now paths.order.now paths.ways.now × Ready trip_stops_file f8.now paths.order.now paths.ways.now × Ready time_codes_file f10.now paths.order.now paths.ways.now }
    ensures { numbered_timed result ≡ plain_from (records_in (fields_of codes_file) f3.now) (records_in (fields_of trip_stops_file) f8.now) (records_in (fields_of time_codes_file) f10.now) 1 (records_in (fields_of trips_file) f6.now) }
{
    if none_wrong(f3, f6, f8, f10, paths) {
        return Timed::Sound;
    }
    first_wrong(f3, f6, f8, f10, paths)
}

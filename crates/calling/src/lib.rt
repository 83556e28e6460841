// A trip's stops: document 01, "A trip's stops". Its records are walked through in Zasspoje in travel order.
#![tactic(auto)]

ghost use Rattle.std.specs.Prelude.{◌≡◌, ◌<◌};
ghost use Rattle.file.specs.Files.{fields_of};
ghost use Rattle.file.specs.Records.{records_in};
ghost use Rattle.field.specs.Names.{trip_stops_file};
ghost use Rattle.keys.specs.Keys.{none};
ghost use Rattle.keys.specs.KeyFiles.{PlaceIn};
ghost use Rattle.coded.specs.Ready.{Ready};
ghost use Rattle.trip.specs.Stops.{stops_fit};
ghost use Rattle.calling.specs.Calling.{travelled, first_place};

use clip::cut;
use entries::Step;
use lookup::Paths;
use steps::{first_step, step_on};
use walk::CutRecord;

// Whether a trip's stops fit, and where the one that is last in the file stands, with the last entry of an index that was looked at: the
// next trip's are expected behind it.
#[derive(Clone, Copy)]
pub struct Stops {
    pub fit: bool,
    pub last: usize,
    pub entry: usize,
}

// inner: where the walk in travel order begins
pub fn first_of(f8: &[u8], paths: Paths, last: usize, entry: usize, line: u64, trip: u64) -> Step
    requires { Ready trip_stops_file f8.now paths.order.now paths.ways.now × PlaceIn trip_stops_file f8.now last × (line < none) × (trip < none) }
    ensures { result.at ≡ first_place f8.now line trip }
{
    let up = trip % 2 == 1;
    first_step(8, f8, paths, last, entry, up, line, trip)
}

// inner: whether a trip isn't refused with 11, and where the one of its stops that is last in the file stands
pub fn stops_fit(f8: &[u8], paths: Paths, last: usize, entry: usize, line: u64, trip: u64) -> Stops
    requires { Ready trip_stops_file f8.now paths.order.now paths.ways.now × PlaceIn trip_stops_file f8.now last × (line < none) × (trip < none) }
    ensures { (result.fit ≡ stops_fit (travelled line trip (records_in (fields_of trip_stops_file) f8.now))) × PlaceIn trip_stops_file f8.now result.last }
{
    let up = trip % 2 == 1;
    let mut places: [usize; 14] = [0; 14];
    let mut c = track::set_out();
    let mut time: u64 = 0;
    let mut length: u64 = 0;
    let mut step = first_of(f8, paths, last, entry, line, trip);
    let begun = step.entry;
    let mut near = step.at;
    while step.at < f8.len() {
        let next = cut(f8, step.at, 10, &mut places);
        let row = CutRecord {
            bytes: f8,
            places: &places,
        };
        let v = course::visit_of(row);
        c = track::track_on(c, v);
        time = track::time_on(time, v);
        length = track::length_on(length, v);
        near = near.max(step.at);
        step = step_on(8, row, paths, step, next, up, line, trip);
    }
    Stops {
        fit: track::course_ends(c, time, length),
        last: near,
        entry: begun.max(step.entry),
    }
}

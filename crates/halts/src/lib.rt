// A trip's stops one by one: how many it has, the nth in travel order, and whether a later one has a time.
#![tactic(auto)]

ghost use Rattle.std.specs.Prelude.{◌≡◌, ◌<◌, length, drop};
ghost use Rattle.file.specs.Files.{fields_of};
ghost use Rattle.file.specs.Records.{records_in};
ghost use Rattle.field.specs.Names.{trip_stops_file};
ghost use Rattle.keys.specs.Keys.{none};
ghost use Rattle.keys.specs.KeyFiles.{PlaceIn};
ghost use Rattle.coded.specs.Left.{left_at};
ghost use Rattle.coded.specs.Ready.{Ready};
ghost use Rattle.trail.specs.Lists.{some};
ghost use Rattle.trip.specs.Stops.{timed};
ghost use Rattle.calling.specs.Calling.{travelled, goes_up};
ghost use Rattle.halts.specs.Halts.{Nth};

use byway::onward;
use calling::first_of;
use entries::Step;
use lookup::Paths;
use steps::step_on;
use walk::{CutRecord, cut};

// inner: how many stops a trip has
pub fn count_stops(f8: &[u8], paths: Paths, line: u64, trip: u64) -> u64
    requires { Ready trip_stops_file f8.now paths.order.now paths.ways.now × (line < none) × (trip < none) }
    ensures { result ≡ length (travelled line trip (records_in (fields_of trip_stops_file) f8.now)) }
{
    let up = trip % 2 == 1;
    let mut places: [usize; 14] = [0; 14];
    let mut n: u64 = 0;
    let mut step = first_of(f8, paths, 0, 0, line, trip);
    while step.at < f8.len() {
        let next = cut(f8, step.at, 10, &mut places);
        let row = CutRecord {
            bytes: f8,
            places: &places,
        };
        n += 1;
        step = step_on(8, row, paths, step, next, up, line, trip);
    }
    n
}

// inner: the place of a trip's nth stop in travel order, from 0 on; the end of the file if it has no more
pub fn nth_stop(n: u64, f8: &[u8], paths: Paths, line: u64, trip: u64) -> usize
    requires { Ready trip_stops_file f8.now paths.order.now paths.ways.now × (line < none) × (trip < none) }
    ensures { Nth f8.now line trip n result }
{
    let up = trip % 2 == 1;
    let mut places: [usize; 14] = [0; 14];
    let mut i: u64 = 0;
    let mut step = first_of(f8, paths, 0, 0, line, trip);
    while step.at < f8.len() {
        if i == n {
            return step.at;
        }
        let next = cut(f8, step.at, 10, &mut places);
        let row = CutRecord {
            bytes: f8,
            places: &places,
        };
        i += 1;
        step = step_on(8, row, paths, step, next, up, line, trip);
    }
    step.at
}

// inner: whether a record with a time comes behind the one at a place, in travel order
pub fn timed_behind(start: usize, f8: &[u8], paths: Paths, line: u64, trip: u64) -> bool
    requires { PlaceIn trip_stops_file f8.now start × (start < length f8.now) × Ready trip_stops_file f8.now paths.order.now paths.ways.now × (line < none) × (trip < none) }
    ensures { result ≡ some timed (drop 1 (left_at trip_stops_file f8.now (goes_up trip) line trip start)) }
{
    let up = trip % 2 == 1;
    let mut places: [usize; 14] = [0; 14];
    cut(f8, start, 10, &mut places);
    let first = CutRecord {
        bytes: f8,
        places: &places,
    };
    let mut step = Step {
        at: onward(8, first, paths, start, up, line, trip),
        entry: 0,
    };
    while step.at < f8.len() {
        let next = cut(f8, step.at, 10, &mut places);
        let row = CutRecord {
            bytes: f8,
            places: &places,
        };
        let v = course::visit_of(row);
        if v.arrives || v.departs {
            return true;
        }
        step = step_on(8, row, paths, step, next, up, line, trip);
    }
    false
}

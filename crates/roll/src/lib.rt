// The trips of an accepted batch one by one, in Spoje order: how many there are, where the nth stands, its line and number; and a trip's stop by its
// tariff number. From one trip to the next goes `lines::line_after`.
#![tactic(auto)]

ghost use Rattle.std.specs.Prelude.{◌≡◌, [], ◌∷◌, ◌<◌, length};
ghost use Rattle.file.specs.Files.{fields_of};
ghost use Rattle.file.specs.Records.{records_in};
ghost use Rattle.field.specs.Names.{trip_stops_file};
ghost use Rattle.keys.specs.Keys.{none, first_with};
ghost use Rattle.keys.specs.KeyFiles.{PlaceIn};
ghost use Rattle.keys.specs.Ranks.{record_at};
ghost use Rattle.coded.specs.Ready.{Ready};
ghost use Rattle.trip.specs.Stage.{trips_file};
ghost use Rattle.roll.specs.Roll.{NthTrip, Names};

use field::value_of;
use find::with_three;
use lines::line_after;
use lookup::{Paths, index_of};
use tally::count;
use walk::{CutRecord, cut, part};

// A trip's line and number.
#[derive(Clone, Copy)]
pub struct Name {
    pub line: u64,
    pub trip: u64,
}

// inner: how many trips there are
pub fn count_trips(f6: &[u8], paths: Paths) -> usize
    requires { Ready trips_file f6.now paths.order.now paths.ways.now }
    ensures { result ≡ length (records_in (fields_of trips_file) f6.now) }
{
    count(6, f6)
}

// inner: where the nth trip stands, from 0 on; the end of the file if there are no more
pub fn nth_trip(n: u64, f6: &[u8], paths: Paths) -> usize
    requires { Ready trips_file f6.now paths.order.now paths.ways.now }
    ensures { NthTrip f6.now n result }
{
    let mut i: u64 = 0;
    let mut at: usize = 0;
    while at < f6.len() {
        if i == n {
            return at;
        }
        i += 1;
        at = line_after(f6, at);
    }
    at
}

// inner: the line and the number of the trip that stands at a place
pub fn name_at(f6: &[u8], at: usize, paths: Paths) -> Name
    requires { Ready trips_file f6.now paths.order.now paths.ways.now × PlaceIn trips_file f6.now at × (at < length f6.now) }
    ensures { Names (record_at trips_file f6.now at) result }
{
    let mut places: [usize; 14] = [0; 14];
    cut(f6, at, 12, &mut places);
    let row = CutRecord {
        bytes: f6,
        places: &places,
    };
    Name {
        line: value_of(part(row, 0)),
        trip: value_of(part(row, 1)),
    }
}

// inner: where the trip's stop of a tariff number stands
pub fn stop_of(
    tariff: u64,
    f8: &[u8],
    paths: Paths,
    last: usize,
    line: u64,
    trip: u64,
) -> Option<usize>
    requires { (tariff < none) × Ready trip_stops_file f8.now paths.order.now paths.ways.now × PlaceIn trip_stops_file f8.now last × (line < none) × (trip < none) }
    ensures { result ≡ first_with trip_stops_file (line ∷ trip ∷ tariff ∷ []) 0 (records_in (fields_of trip_stops_file) f8.now) }
{
    with_three(
        8,
        f8,
        paths.ways[24] == 1,
        index_of(paths, 8),
        last,
        line,
        trip,
        tariff,
    )
}

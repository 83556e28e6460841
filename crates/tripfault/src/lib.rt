// One trip of a batch: what is wrong with it, its days or its stops.
#![tactic(auto)]

ghost use Rattle.std.specs.Prelude.{◌≡◌};
ghost use Rattle.file.specs.Files.{fields_of};
ghost use Rattle.file.specs.Records.{records_in};
ghost use Rattle.field.specs.Names.{time_codes_file, trip_stops_file};
ghost use Rattle.keys.specs.KeyFiles.{PlaceIn};
ghost use Rattle.link.specs.Signs.{codes_file};
ghost use Rattle.rules.specs.Texts.{texts, Kinded};
ghost use Rattle.coded.specs.Ready.{Ready};
ghost use Rattle.trip.specs.Stage.{trips_file};
ghost use Rattle.tripfault.specs.Plain.{plain_fault};

use calling::stops_fit;
use field::value_of;
use lookup::Paths;
use running::days_fit;
use walk::{CutRecord, part};

// What is wrong with a trip, 10, 11 or 0, and where its last time code and its last stop stand, each with the entry of an index that was looked
// at last: the next trip's are looked for there first.
#[derive(Clone, Copy)]
pub struct Tried {
    pub fault: u64,
    pub code: usize,
    pub code_entry: usize,
    pub stop: usize,
    pub stop_entry: usize,
}

// inner: before the first trip, the walks begin where the files do
pub fn none_tried() -> Tried
    ensures { (result.code ≡ 0) × (result.stop ≡ 0) }
{
    Tried {
        fault: 0,
        code: 0,
        code_entry: 0,
        stop: 0,
        stop_entry: 0,
    }
}

// inner: what is wrong with the trip whose record was cut; `last` is what was found of the one before
pub fn trip_fault(
    row: CutRecord,
    f3: &[u8],
    f8: &[u8],
    f10: &[u8],
    paths: Paths,
    last: Tried,
) -> Tried
    requires { Kinded trips_file row.bytes.now row.places.now × Ready codes_file f3.now paths.order.now paths.ways.now × Ready trip_stops_file f8.now paths.order.now paths.ways.now × Ready time_codes_file f10.now paths.order.now paths.ways.now × PlaceIn time_codes_file f10.now last.code × PlaceIn trip_stops_file f8.now last.stop }
    ensures { (result.fault ≡ plain_fault (records_in (fields_of codes_file) f3.now) (records_in (fields_of trip_stops_file) f8.now) (records_in (fields_of time_codes_file) f10.now) (texts trips_file row.entry.bytes.now row.entry.places.now)) × PlaceIn time_codes_file f10.now result.code × PlaceIn trip_stops_file f8.now result.stop }
{
    let line = value_of(part(row, 0));
    let trip = value_of(part(row, 1));
    let d = days_fit(row, line, trip, f3, f10, paths, last.code, last.code_entry);
    if !d.fit {
        return Tried {
            fault: 10,
            code: d.last,
            code_entry: d.entry,
            stop: last.stop,
            stop_entry: last.stop_entry,
        };
    }
    let s = stops_fit(f8, paths, last.stop, last.stop_entry, line, trip);
    let fault = if s.fit { 0 } else { 11 };
    Tried {
        fault,
        code: d.last,
        code_entry: d.entry,
        stop: s.last,
        stop_entry: s.entry,
    }
}

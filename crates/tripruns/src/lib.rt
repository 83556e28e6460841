// Whether a trip runs on a day: document 01, "Days", on a batch that stands.
#![tactic(auto)]

ghost use Rattle.std.specs.Prelude.{◌≡◌, true, [], ◌∷◌, ◌≤◌, ◌<◌, length};
ghost use Rattle.file.specs.Files.{fields_of};
ghost use Rattle.file.specs.Records.{records_in};
ghost use Rattle.field.specs.Names.{lines_file, time_codes_file};
ghost use Rattle.keys.specs.Keys.{none, has};
ghost use Rattle.keys.specs.KeyFiles.{PlaceIn};
ghost use Rattle.keys.specs.Ranks.{record_at};
ghost use Rattle.link.specs.Signs.{codes_file};
ghost use Rattle.coded.specs.Ready.{Ready};
ghost use Rattle.trail.specs.Lists.{first_or};
ghost use Rattle.trip.specs.Days.{is_valid};
ghost use Rattle.trip.specs.Stage.{trips_file};
ghost use Rattle.trip.specs.View.{of_line};
ghost use Rattle.trips.specs.Plain.{plain_runs};

use byway::by_one;
use field::day_of;
use lookup::Paths;
use running::allowed_on;
use walk::{CutRecord, cut, part};

// Whether day d is within the validity of the line whose record starts at a place: fields 9 and 10.
fn valid_at(f5: &[u8], at: usize, paths: Paths, d: u64) -> bool
    requires { Ready lines_file f5.now paths.order.now paths.ways.now × PlaceIn lines_file f5.now at × (at < length f5.now) }
    ensures { result ≡ is_valid (record_at lines_file f5.now at) d }
{
    let mut places: [usize; 14] = [0; 14];
    cut(f5, at, 10, &mut places);
    let row = CutRecord {
        bytes: f5,
        places: &places,
    };
    day_of(part(row, 8)) <= d && d <= day_of(part(row, 9))
}

// Whether day d is within the validity of a line that there is.
fn valid_on(line: u64, f5: &[u8], paths: Paths, d: u64) -> bool
    requires { (line < none) × Ready lines_file f5.now paths.order.now paths.ways.now × (has lines_file (line ∷ []) (records_in (fields_of lines_file) f5.now) ≡ true) }
    ensures { result ≡ is_valid (first_or [] (of_line line) (records_in (fields_of lines_file) f5.now)) d }
{
    match by_one(5, f5, paths, line) {
        Some(at) => valid_at(f5, at, paths, d),
        None => false,
    }
}

// inner: whether the trip whose record starts at a place of Spoje runs on day d. Of the batch's files, Pevnykod, Linky, Spoje and Caskody are asked for.
pub fn trip_runs(
    at: usize,
    line: u64,
    trip: u64,
    f3: &[u8],
    f5: &[u8],
    f6: &[u8],
    f10: &[u8],
    paths: Paths,
    d: u64,
    holidays: &[u64],
) -> bool
    requires { PlaceIn trips_file f6.now at × (at < length f6.now) × (line < none) × (trip < none) × Ready codes_file f3.now paths.order.now paths.ways.now × Ready lines_file f5.now paths.order.now paths.ways.now × (has lines_file (line ∷ []) (records_in (fields_of lines_file) f5.now) ≡ true) × Ready trips_file f6.now paths.order.now paths.ways.now × Ready time_codes_file f10.now paths.order.now paths.ways.now × (d ≤ 73048) }
    ensures { result ≡ plain_runs (records_in (fields_of codes_file) f3.now) (records_in (fields_of lines_file) f5.now) (records_in (fields_of time_codes_file) f10.now) line trip (record_at trips_file f6.now at) holidays.now d }
{
    if !valid_on(line, f5, paths, d) {
        return false;
    }
    let mut places: [usize; 14] = [0; 14];
    cut(f6, at, 12, &mut places);
    let row = CutRecord {
        bytes: f6,
        places: &places,
    };
    allowed_on(row, line, trip, f3, f10, paths, d, holidays)
}

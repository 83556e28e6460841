// A trip's days: document 01, "Days". Its record of Spoje was cut; its time codes are walked through once, as `timecodes` does, and the signs of its
// codes are looked at as `daysigns` does.
#![tactic(auto)]

ghost use Rattle.std.specs.Prelude.{◌≡◌, ◌≤◌, ◌<◌};
ghost use Rattle.file.specs.Files.{fields_of};
ghost use Rattle.file.specs.Records.{records_in};
ghost use Rattle.field.specs.Names.{time_codes_file};
ghost use Rattle.keys.specs.Keys.{none};
ghost use Rattle.keys.specs.KeyFiles.{PlaceIn};
ghost use Rattle.link.specs.Signs.{sign_in, codes_file};
ghost use Rattle.rules.specs.Texts.{texts, Kinded};
ghost use Rattle.coded.specs.Ready.{Ready};
ghost use Rattle.trail.specs.Trail.{upward};
ghost use Rattle.trip.specs.Days.{days_fit, codes_allow};
ghost use Rattle.trip.specs.Stage.{trips_file};
ghost use Rattle.trip.specs.View.{signs_from};

use daysigns::{has_day_sign, signs_allow};
use lookup::Paths;
use timecodes::{held_on, types_of};
use walk::CutRecord;

// Whether a trip's days fit, and where the last of its time codes stands, with the last entry of an index that was looked at.
#[derive(Clone, Copy)]
pub struct Days {
    pub fit: bool,
    pub last: usize,
    pub entry: usize,
}

// inner: whether a trip, whose record of Spoje was cut, isn't refused with 10; and where the last of its time codes stands
pub fn days_fit(
    row: CutRecord,
    line: u64,
    trip: u64,
    f3: &[u8],
    f10: &[u8],
    paths: Paths,
    last: usize,
    entry: usize,
) -> Days
    requires { Kinded trips_file row.bytes.now row.places.now × (line < none) × (trip < none) × Ready codes_file f3.now paths.order.now paths.ways.now × Ready time_codes_file f10.now paths.order.now paths.ways.now × PlaceIn time_codes_file f10.now last }
    ensures { (result.fit ≡ days_fit (signs_from (λ c. sign_in (records_in (fields_of codes_file) f3.now) c) 3 10 (texts trips_file row.entry.bytes.now row.entry.places.now)) (upward time_codes_file line trip (records_in (fields_of time_codes_file) f10.now))) × PlaceIn time_codes_file f10.now result.last }
{
    let mut seen: [u64; 9] = [0; 9];
    let m = types_of(f10, paths, last, entry, line, trip, &mut seen);
    let dated = seen[3] != 0 && has_day_sign(row, f3, paths);
    Days {
        fit: codes::days_fit(&seen, m.differ, dated),
        last: m.last,
        entry: m.entry,
    }
}

// inner: whether the signs and time codes of a trip, whose record of Spoje was cut, allow day d
pub fn allowed_on(
    row: CutRecord,
    line: u64,
    trip: u64,
    f3: &[u8],
    f10: &[u8],
    paths: Paths,
    d: u64,
    holidays: &[u64],
) -> bool
    requires { Kinded trips_file row.bytes.now row.places.now × (line < none) × (trip < none) × Ready codes_file f3.now paths.order.now paths.ways.now × Ready time_codes_file f10.now paths.order.now paths.ways.now × (d ≤ 73048) }
    ensures { result ≡ codes_allow (signs_from (λ c. sign_in (records_in (fields_of codes_file) f3.now) c) 3 10 (texts trips_file row.entry.bytes.now row.entry.places.now)) (upward time_codes_file line trip (records_in (fields_of time_codes_file) f10.now)) d holidays.now }
{
    let mut seen: [u64; 9] = [0; 9];
    let mut held: [u64; 9] = [0; 9];
    held_on(f10, paths, line, trip, d, &mut seen, &mut held);
    let allowed = signs_allow(row, f3, paths, d, holidays);
    codes::codes_allow(&seen, &held, d, allowed)
}

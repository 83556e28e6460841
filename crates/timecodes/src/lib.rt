// A trip's time codes, walked through in Caskody: their types and marks, and those that hold a day.
#![tactic(auto)]

ghost use Rattle.std.specs.Prelude.{◌≡◌, true, false, ◌≤◌, ◌<◌, length, set};
ghost use Rattle.laws.specs.Tests.{pick, one_of};
ghost use Rattle.file.specs.Files.{fields_of};
ghost use Rattle.file.specs.Records.{records_in};
ghost use Rattle.field.specs.Names.{time_codes_file};
ghost use Rattle.field.specs.Rules.{meets};
ghost use Rattle.keys.specs.Keys.{none};
ghost use Rattle.keys.specs.KeyFiles.{PlaceIn};
ghost use Rattle.rules.specs.Texts.{texts, Kinded};
ghost use Rattle.coded.specs.Ready.{Ready};
ghost use Rattle.trail.specs.Trail.{upward};
ghost use Rattle.trip.specs.Days.{type_of, holds_day};
ghost use Rattle.codes.specs.Seen.{seen_behind, held_behind, first_mark, differs_from, marks_differ};

use clip::cut;
use lookup::Paths;
use steps::{first_step, step_on};
use walk::CutRecord;

// The marks of the time codes that have come: the value of the first that has a type, 0 if none has come; and whether another came.
#[derive(Clone, Copy)]
struct Marks {
    first: u64,
    differ: bool,
}

// Whether the marks of a trip's time codes differ, and where the last of them stands, with the last entry of an index that was looked at.
#[derive(Clone, Copy)]
pub struct Types {
    pub differ: bool,
    pub last: usize,
    pub entry: usize,
}

// The marks when one more time code comes, which was cut and has this type.
fn mark_on(m: Marks, kind: u64, row: CutRecord) -> Marks
    requires { Kinded time_codes_file row.bytes.now row.places.now × (meets time_codes_file (texts time_codes_file row.bytes.now row.places.now) ≡ true) × (kind ≡ type_of (texts time_codes_file row.bytes.now row.places.now)) }
    ensures { (result.first ≡ first_mark m.first (texts time_codes_file row.entry.bytes.now row.entry.places.now)) × (result.differ ≡ one_of m.differ (differs_from m.first (texts time_codes_file row.entry.bytes.now row.entry.places.now))) }
{
    if kind == 0 {
        return m;
    }
    let found = codes::mark_of(row);
    if m.first == 0 {
        return Marks {
            first: found,
            differ: m.differ,
        };
    }
    Marks {
        first: m.first,
        differ: m.differ || found != m.first,
    }
}

// inner: the types of a trip's time codes, each marked in the list; whether their marks differ, and where the last of them stands
pub fn types_of(
    f10: &[u8],
    paths: Paths,
    last: usize,
    entry: usize,
    line: u64,
    trip: u64,
    seen: &mut [u64],
) -> Types
    requires { Ready time_codes_file f10.now paths.order.now paths.ways.now × PlaceIn time_codes_file f10.now last × (line < none) × (trip < none) × (9 ≤ length seen.old) }
    ensures { (seen.new ≡ seen_behind seen.old (upward time_codes_file line trip (records_in (fields_of time_codes_file) f10.now))) × (result.differ ≡ marks_differ 0 false (upward time_codes_file line trip (records_in (fields_of time_codes_file) f10.now))) × PlaceIn time_codes_file f10.now result.last }
{
    let mut places: [usize; 14] = [0; 14];
    let mut m = Marks {
        first: 0,
        differ: false,
    };
    let mut near = last;
    let mut step = first_step(10, f10, paths, last, entry, true, line, trip);
    while step.at < f10.len() {
        let next = cut(f10, step.at, 8, &mut places);
        let row = CutRecord {
            bytes: f10,
            places: &places,
        };
        let kind = codes::type_of(row);
        seen[kind as usize] = 1;
        m = mark_on(m, kind, row);
        near = step.at;
        step = step_on(10, row, paths, step, next, true, line, trip);
    }
    Types {
        differ: m.differ,
        last: near,
        entry: step.entry,
    }
}

// The list when one more time code comes, which was cut: its type is marked if it holds day d.
fn hold_on(row: CutRecord, d: u64, held: &mut [u64])
    requires { Kinded time_codes_file row.bytes.now row.places.now × (9 ≤ length held.old) }
    ensures { held.new ≡ pick (holds_day d (texts time_codes_file row.entry.bytes.now row.entry.places.now)) (set held.old (type_of (texts time_codes_file row.entry.bytes.now row.entry.places.now)) 1) held.old }
{
    if codes::holds_day(row, d) {
        let kind = codes::type_of(row);
        held[kind as usize] = 1;
    }
}

// inner: the types of a trip's time codes, each marked in one list, and those of which one holds day d, marked in another
pub fn held_on(
    f10: &[u8],
    paths: Paths,
    line: u64,
    trip: u64,
    d: u64,
    seen: &mut [u64],
    held: &mut [u64],
)
    requires { Ready time_codes_file f10.now paths.order.now paths.ways.now × (line < none) × (trip < none) × (9 ≤ length seen.old) × (9 ≤ length held.old) }
    ensures { (seen.new ≡ seen_behind seen.old (upward time_codes_file line trip (records_in (fields_of time_codes_file) f10.now))) × (held.new ≡ held_behind d held.old (upward time_codes_file line trip (records_in (fields_of time_codes_file) f10.now))) }
{
    let mut places: [usize; 14] = [0; 14];
    let mut step = first_step(10, f10, paths, 0, 0, true, line, trip);
    while step.at < f10.len() {
        let next = cut(f10, step.at, 8, &mut places);
        let row = CutRecord {
            bytes: f10,
            places: &places,
        };
        let kind = codes::type_of(row);
        seen[kind as usize] = 1;
        hold_on(row, d, held);
        step = step_on(10, row, paths, step, next, true, line, trip);
    }
}

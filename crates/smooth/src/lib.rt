// The check of a batch whose keys rise, each file gone through once: none of 1 to 9 is found. Only that nothing is wrong is said
// here; where something may be, or where keys don't rise, the files are gone through stage by stage as document 01 orders. A file comes behind those
// that it links to: first Pevnykod and Dopravci, then Zastavky and Linky, then Spoje and Zaslinky, then the others.
#![tactic(auto)]

ghost use Rattle.std.specs.Prelude.{◌≡◌, true, ◌≤◌, length};
ghost use Rattle.thirteen.specs.Lent.{batch_of};
ghost use Rattle.passage.specs.Passage.{Passes};
ghost use Rattle.smooth.specs.Smooth.{OrderlyFiles, RisingWays, targets_in, TargetsPassed, AllPassed, Smooth};

use fault::is_none;
use filefaults::is_right_version;
use glance::seem_rising;
use lookup::Paths;
use overfiles::first_long;
use passage::passes;
use thirteen::{Files, file_of};

// Sets the way to each keyed file as to one whose keys rise and that has no index. That holds of an empty file, and of each file as soon as it has passed.
fn set_rising(ways: &mut [usize])
    requires { 33 ≤ length ways.old }
    ensures { RisingWays ways.new }
{
    for file in 2..11 {
        let i = file * 3;
        ways[i] = 1;
        ways[i + 1] = 0;
        ways[i + 2] = 0;
    }
}

// Whether two files pass beside these.
fn both_pass(file: u64, s: &[u8], other: u64, t: &[u8], files: &Files, paths: Paths) -> bool
    requires { (2 ≤ file) × (file ≤ 7) × (2 ≤ other) × (other ≤ 7) × OrderlyFiles (batch_of files.now) × (33 ≤ length paths.ways.now) × RisingWays paths.ways.now }
    ensures { result ≡ true → Passes (batch_of files.now) file s.now × Passes (batch_of files.now) other t.now }
{
    passes(file, s, files, paths) && passes(other, t, files, paths)
}

// Whether the files that are linked to pass, each pair beside those that it links to.
fn targets_pass(files: &Files, paths: Paths) -> bool
    requires { (33 ≤ length paths.ways.now) × RisingWays paths.ways.now }
    ensures { result ≡ true → TargetsPassed (targets_in files.now) }
{
    let empty = &files.version[..0];
    let none = Files {
        version: files.version,
        stops: empty,
        codes: empty,
        carriers: empty,
        lines: empty,
        trips: empty,
        line_stops: empty,
        trip_stops: empty,
        notes: empty,
        time_codes: empty,
        other_carriers: empty,
        other_lines: empty,
        seats: empty,
    };
    let bases = Files {
        codes: files.codes,
        carriers: files.carriers,
        ..none
    };
    let lines = Files {
        stops: files.stops,
        lines: files.lines,
        ..bases
    };
    both_pass(3, files.codes, 4, files.carriers, &none, paths)
        && both_pass(2, files.stops, 5, files.lines, &bases, paths)
        && both_pass(6, files.trips, 7, files.line_stops, &lines, paths)
}

// Whether the others pass too.
fn others_pass(files: &Files, paths: Paths) -> bool
    requires { TargetsPassed (targets_in files.now) × (33 ≤ length paths.ways.now) × RisingWays paths.ways.now }
    ensures { result ≡ true → AllPassed (batch_of files.now) }
{
    let empty = &files.version[..0];
    let targets = Files {
        trip_stops: empty,
        notes: empty,
        time_codes: empty,
        other_carriers: empty,
        other_lines: empty,
        seats: empty,
        ..*files
    };
    for file in 8..14 {
        if !passes(file, file_of(file, files), &targets, paths) {
            return false;
        }
    }
    true
}

// inner: whether none of 1 to 9 is found and all keys rise; if so, the ways to the records
pub fn all_pass(files: &Files, order: &[u32], ways: &mut [usize]) -> bool
    requires { 33 ≤ length ways.old }
    ensures { result ≡ true → Smooth (batch_of files.now) order.now ways.new }
{
    if !seem_rising(
        files.stops,
        files.codes,
        files.carriers,
        files.lines,
        files.trips,
        files.line_stops,
        files.trip_stops,
        files.notes,
        files.time_codes,
    ) || !is_right_version(files.version)
        || !is_none(first_long(files))
    {
        return false;
    }
    set_rising(ways);
    let paths = Paths { order, ways };
    targets_pass(files, paths) && others_pass(files, paths)
}

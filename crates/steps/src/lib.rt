// A trip's records one after another, by their numbers: where a walk begins, and where it goes on, with no search where none is needed.
#![tactic(auto)]

ghost use Rattle.std.specs.Prelude.{◌≡◌, true, ℕ, ◌<◌, length};
ghost use Rattle.file.specs.Files.{fields_of};
ghost use Rattle.file.specs.Records.{records_in};
ghost use Rattle.lines.specs.Lines.{behind};
ghost use Rattle.keys.specs.Keys.{key_fields, none, of_trip, third};
ghost use Rattle.keys.specs.KeyFiles.{KeyFile, KeysRise, PlaceIn};
ghost use Rattle.keys.specs.Ranks.{record_at};
ghost use Rattle.lookup.specs.Ways.{how_of};
ghost use Rattle.rules.specs.Texts.{texts, Kinded};
ghost use Rattle.trail.specs.Trail.{step_of, place_of, begin, after, Walks, Treads};

use byway::{along, onward};
use entries::{Step, entry_of, first_entry, names, next_entry, place_of};
use following::if_of_trip;
use lookup::{Paths, index_of};
use previous::line_before;
use walk::CutRecord;

// Where keys rise: the record behind one of the trip's, or the one before it, if it is the trip's too.
fn beside(
    file: u64,
    s: &[u8],
    at: usize,
    next: usize,
    up: bool,
    line: u64,
    trip: u64,
) -> Option<usize>
    requires { KeyFile file s.now × (length (key_fields file) ≡ 3) × KeysRise file s.now × PlaceIn file s.now at × (at < length s.now) × (next ≡ behind s.now at) × (of_trip file line trip (record_at file s.now at) ≡ true) × (line < none) × (trip < none) }
    ensures { result ≡ step_of file up line trip (after up (third file (record_at file s.now at))) (records_in (fields_of file) s.now) }
{
    if up {
        return if_of_trip(file, s, next, line, trip);
    }
    if at == 0 {
        return None;
    }
    if_of_trip(file, s, line_before(s, at), line, trip)
}

// A step by an index whose keys are all different.
fn by_entry(
    file: u64,
    row: CutRecord,
    paths: Paths,
    at: usize,
    entry: usize,
    up: bool,
    line: u64,
    trip: u64,
) -> Step
    requires { Walks file row.bytes.now paths.order.now paths.ways.now at × Kinded file row.bytes.now row.places.now × ((next : ℕ) × Treads file row.bytes.now row.places.now line trip at next) × (how_of paths.ways.now file ≡ 2) × (line < none) × (trip < none) }
    ensures { result.at ≡ place_of row.entry.bytes.now (step_of file up line trip (after up (third file (texts file row.entry.bytes.now row.entry.places.now))) (records_in (fields_of file) row.entry.bytes.now)) }
{
    let part = index_of(paths, file);
    let i = entry_of(file, row.bytes, part, at, entry);
    if names(part, i, at) {
        return next_entry(file, row.bytes, part, i, up, line, trip);
    }
    Step {
        at: onward(file, row, paths, at, up, line, trip),
        entry: 0,
    }
}

// inner: where a trip's walk begins. The walk before ended near the place `last` and the entry `near`, which may be any number
pub fn first_step(
    file: u64,
    s: &[u8],
    paths: Paths,
    last: usize,
    near: usize,
    up: bool,
    line: u64,
    trip: u64,
) -> Step
    requires { Walks file s.now paths.order.now paths.ways.now last × (line < none) × (trip < none) }
    ensures { result.at ≡ place_of s.now (step_of file up line trip (begin up) (records_in (fields_of file) s.now)) }
{
    let i = (file as usize) * 3;
    if paths.ways[i] == 2 {
        let part = index_of(paths, file);
        if !part.is_empty() {
            return first_entry(file, s, part, near, up, line, trip);
        }
    }
    let x = if up { 0 } else { 1000000000 };
    Step {
        at: along(file, s, paths, last, up, line, trip, x),
        entry: 0,
    }
}

// inner: the same as `byway::onward` from one of the trip's records, with no search where keys rise or an index names them one after another
pub fn step_on(
    file: u64,
    row: CutRecord,
    paths: Paths,
    from: Step,
    next: usize,
    up: bool,
    line: u64,
    trip: u64,
) -> Step
    requires { Walks file row.bytes.now paths.order.now paths.ways.now from.at × Kinded file row.bytes.now row.places.now × Treads file row.bytes.now row.places.now line trip from.at next × (line < none) × (trip < none) }
    ensures { result.at ≡ place_of row.entry.bytes.now (step_of file up line trip (after up (third file (texts file row.entry.bytes.now row.entry.places.now))) (records_in (fields_of file) row.entry.bytes.now)) }
{
    let i = (file as usize) * 3;
    if paths.ways[i] == 1 {
        let found = beside(file, row.bytes, from.at, next, up, line, trip);
        return Step {
            at: place_of(row.bytes, found),
            entry: 0,
        };
    }
    if paths.ways[i] == 2 {
        return by_entry(file, row, paths, from.at, from.entry, up, line, trip);
    }
    Step {
        at: onward(file, row, paths, from.at, up, line, trip),
        entry: 0,
    }
}

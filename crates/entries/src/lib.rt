// A trip's records one after another, by the entries of an index: where a walk begins, and from one entry to the neighbouring one.
#![tactic(auto)]

ghost use Rattle.std.specs.Prelude.{◌≡◌, true, ℕ, ◌+◌, ◌*◌, ◌≤◌, ◌<◌, length, get_or};
ghost use Rattle.file.specs.Files.{fields_of};
ghost use Rattle.file.specs.Records.{records_in};
ghost use Rattle.keys.specs.Keys.{key_fields, none, of_trip, third, next_of};
ghost use Rattle.keys.specs.KeyFiles.{KeyFile, PlaceIn, IsIndex};
ghost use Rattle.keys.specs.Ranks.{record_at};
ghost use Rattle.seek.specs.Seek.{Lower};
ghost use Rattle.previous.specs.Previous.{previous_of};
ghost use Rattle.lookup.specs.Ways.{NoneUsed};
ghost use Rattle.trail.specs.Trail.{step_of, place_of, begin, after};

use following::if_of_trip;
use keys::{Key, key_at};
use seek::lower;

// Where a walk stands, and the entry of the index that names the place: a hint for the next step, and any number where there is no index.
#[derive(Clone, Copy)]
pub struct Step {
    pub at: usize,
    pub entry: usize,
}

// inner: the place of a record, or the end of the file
pub fn place_of(s: &[u8], found: Option<usize>) -> usize
    ensures { result ≡ place_of s.now found }
{
    found.unwrap_or(s.len())
}

// By an index: the record of entry i, if it is the trip's. Where i is the first entry from the trip's x on, that is the next record from x on.
fn entry_from(file: u64, s: &[u8], part: &[u32], i: usize, line: u64, trip: u64) -> Step
    requires { KeyFile file s.now × (length (key_fields file) ≡ 3) × IsIndex file s.now part.now × (line < none) × (trip < none) }
    ensures { (x : ℕ) → Lower file s.now part.now ((line * none + trip) * none + x) i → result.at ≡ place_of s.now (next_of file line trip x (records_in (fields_of file) s.now)) }
{
    if i >= part.len() {
        return Step {
            at: s.len(),
            entry: i,
        };
    }
    let found = if_of_trip(file, s, part[i] as usize, line, trip);
    Step {
        at: place_of(s, found),
        entry: i,
    }
}

// The same of the entry before i, where no two records have one key: that is the last record below x.
fn entry_below(file: u64, s: &[u8], part: &[u32], i: usize, line: u64, trip: u64) -> Step
    requires { KeyFile file s.now × (length (key_fields file) ≡ 3) × IsIndex file s.now part.now × NoneUsed file s.now × (i ≤ length part.now) × (line < none) × (trip < none) }
    ensures { (x : ℕ) → x ≤ none → Lower file s.now part.now ((line * none + trip) * none + x) i → result.at ≡ place_of s.now (previous_of file line trip x (records_in (fields_of file) s.now)) }
{
    if i == 0 {
        return Step {
            at: s.len(),
            entry: 0,
        };
    }
    let found = if_of_trip(file, s, part[i - 1] as usize, line, trip);
    Step {
        at: place_of(s, found),
        entry: i - 1,
    }
}

// inner: from the entry of one of the trip's records to the neighbouring one
pub fn next_entry(
    file: u64,
    s: &[u8],
    part: &[u32],
    entry: usize,
    up: bool,
    line: u64,
    trip: u64,
) -> Step
    requires { KeyFile file s.now × (length (key_fields file) ≡ 3) × IsIndex file s.now part.now × NoneUsed file s.now × (entry < length part.now) × (of_trip file line trip (record_at file s.now (get_or part.now entry 0)) ≡ true) × (line < none) × (trip < none) }
    ensures { result.at ≡ place_of s.now (step_of file up line trip (after up (third file (record_at file s.now (get_or part.now entry 0)))) (records_in (fields_of file) s.now)) }
{
    if up {
        entry_from(file, s, part, entry + 1, line, trip)
    } else {
        entry_below(file, s, part, entry, line, trip)
    }
}

// inner: the entry where a walk begins; `near` is the entry to look at first, any number
pub fn first_entry(
    file: u64,
    s: &[u8],
    part: &[u32],
    near: usize,
    up: bool,
    line: u64,
    trip: u64,
) -> Step
    requires { KeyFile file s.now × (length (key_fields file) ≡ 3) × IsIndex file s.now part.now × NoneUsed file s.now × (line < none) × (trip < none) }
    ensures { result.at ≡ place_of s.now (step_of file up line trip (begin up) (records_in (fields_of file) s.now)) }
{
    let hi = line * 1000000000 + trip;
    if up {
        let i = lower(file, s, part, Key { hi, lo: 0 }, near);
        entry_from(file, s, part, i, line, trip)
    } else {
        let i = lower(file, s, part, Key { hi: hi + 1, lo: 0 }, near);
        entry_below(file, s, part, i, line, trip)
    }
}

// inner: whether an entry of a list names this place
pub fn names(part: &[u32], entry: usize, at: usize) -> bool
    ensures { result ≡ true → (entry < length part.now) × (get_or part.now entry 0 ≡ at) }
{
    entry < part.len() && part[entry] as usize == at
}

// inner: the entry that names a record's place: the one that is hinted at, or else it is looked for
pub fn entry_of(file: u64, s: &[u8], part: &[u32], at: usize, entry: usize) -> usize
    requires { KeyFile file s.now × (0 < length part.now → IsIndex file s.now part.now) × PlaceIn file s.now at × (at < length s.now) }
{
    if names(part, entry, at) {
        return entry;
    }
    if part.is_empty() {
        return 0;
    }
    lower(file, s, part, key_at(file, s, at), entry)
}

// A trip's next record by a search, and a record of one file by its key: each goes the way that was made out for its file.
#![tactic(auto)]

ghost use Rattle.std.specs.Prelude.{◌≡◌, [], ◌∷◌, ◌≤◌, ◌<◌, length};
ghost use Rattle.file.specs.Files.{fields_of};
ghost use Rattle.file.specs.Records.{records_in};
ghost use Rattle.keys.specs.Keys.{key_fields, none, third, first_with};
ghost use Rattle.lookup.specs.Ways.{Way, how_of, from_of, to_of};
ghost use Rattle.rules.specs.Texts.{texts, Kinded};
ghost use Rattle.trail.specs.Trail.{step_of, place_of, after, Walks};

use entries::place_of;
use field::value_of;
use find::{with_one, with_two};
use following::next_of_trip;
use lookup::{Paths, index_of};
use preceding::previous_of_trip;
use walk::{CutRecord, part};

// inner: the place of the trip's next record from x on, upward, or of the last one below x, downward; the end of the file if there is none
pub fn along(
    file: u64,
    s: &[u8],
    paths: Paths,
    last: usize,
    up: bool,
    line: u64,
    trip: u64,
    x: u64,
) -> usize
    requires { Walks file s.now paths.order.now paths.ways.now last × (line < none) × (trip < none) }
    ensures { result ≡ place_of s.now (step_of file up line trip x (records_in (fields_of file) s.now)) }
{
    let rising = paths.ways[(file as usize) * 3] == 1;
    let part = index_of(paths, file);
    if up {
        place_of(s, next_of_trip(file, s, rising, part, last, line, trip, x))
    } else {
        place_of(
            s,
            previous_of_trip(file, s, rising, part, last, line, trip, x),
        )
    }
}

// inner: the place of the trip's record behind the one that was cut, upward or downward; the end of the file if there is none
pub fn onward(
    file: u64,
    row: CutRecord,
    paths: Paths,
    at: usize,
    up: bool,
    line: u64,
    trip: u64,
) -> usize
    requires { Walks file row.bytes.now paths.order.now paths.ways.now at × Kinded file row.bytes.now row.places.now × (line < none) × (trip < none) }
    ensures { result ≡ place_of row.entry.bytes.now (step_of file up line trip (after up (third file (texts file row.entry.bytes.now row.entry.places.now))) (records_in (fields_of file) row.entry.bytes.now)) }
{
    let number = value_of(part(row, 2));
    let x = if up { number + 1 } else { number };
    along(file, row.bytes, paths, at, up, line, trip, x)
}

// inner: the first record of a file whose key is one number
pub fn by_one(file: u64, s: &[u8], paths: Paths, a: u64) -> Option<usize>
    requires { (33 ≤ length paths.ways.now) × Way file s.now paths.order.now (how_of paths.ways.now file) (from_of paths.ways.now file) (to_of paths.ways.now file) × (length (key_fields file) ≡ 1) × (a < none) }
    ensures { result ≡ first_with file (a ∷ []) 0 (records_in (fields_of file) s.now) }
{
    let i = (file as usize) * 3;
    let hit = with_one(
        file,
        s,
        paths.ways[i] == 1,
        index_of(paths, file),
        0,
        paths.order.len(),
        a,
    );
    hit.found
}

// inner: the same by two numbers
pub fn by_two(file: u64, s: &[u8], paths: Paths, a: u64, b: u64) -> Option<usize>
    requires { (33 ≤ length paths.ways.now) × Way file s.now paths.order.now (how_of paths.ways.now file) (from_of paths.ways.now file) (to_of paths.ways.now file) × (length (key_fields file) ≡ 2) × (a < none) × (b < none) }
    ensures { result ≡ first_with file (a ∷ b ∷ []) 0 (records_in (fields_of file) s.now) }
{
    let i = (file as usize) * 3;
    let hit = with_two(
        file,
        s,
        paths.ways[i] == 1,
        index_of(paths, file),
        0,
        paths.order.len(),
        a,
        b,
    );
    hit.found
}

// The record of a trip that comes before some number in key order, in three ways that meet one promise, `previous_of`, as `following` has it for
// the next one: where keys rise, the line before the first record that is not below; else the entry before it in a lent index; else every record.
#![tactic(auto)]

ghost use Rattle.std.specs.Prelude.{◌≡◌, ◌≤◌, ◌<◌, length};
ghost use Rattle.file.specs.Files.{fields_of};
ghost use Rattle.file.specs.Records.{records_in};
ghost use Rattle.keys.specs.Keys.{key_fields, none};
ghost use Rattle.keys.specs.KeyFiles.{KeyFile, KeysRise, PlaceIn, IsIndex};
ghost use Rattle.find.specs.Find.{Asks};
ghost use Rattle.previous.specs.Previous.{previous_number, previous_of};
ghost use Rattle.previous.specs.Steps.{with_number};

use find::with_three;
use keys::key_at;
use lines::line_after;
use ordered::first_from;
use previous::{key_of, line_before, nearer, number_if_of_trip};
use seek::lower;

// Where keys rise: the line before the first record that isn't below x, if it is the trip's.
fn among_rising(file: u64, s: &[u8], last: usize, line: u64, trip: u64, x: u64) -> Option<usize>
    requires { KeyFile file s.now × (length (key_fields file) ≡ 3) × KeysRise file s.now × PlaceIn file s.now last × (line < none) × (trip < none) × (x ≤ none) }
    ensures { result ≡ previous_of file line trip x (records_in (fields_of file) s.now) }
{
    let at = first_from(file, s, last, key_of(line, trip, x));
    if at == 0 {
        return None;
    }
    let before = line_before(s, at);
    if number_if_of_trip(file, s, before, line, trip) == 0 {
        return None;
    }
    Some(before)
}

// One more than the trip's greatest third number below x, or 0: by an index the entry before the first that isn't below x tells.
fn number_by_index(file: u64, s: &[u8], order: &[u32], line: u64, trip: u64, x: u64) -> u64
    requires { KeyFile file s.now × (length (key_fields file) ≡ 3) × IsIndex file s.now order.now × (line < none) × (trip < none) × (x ≤ none) }
    ensures { result ≡ previous_number file line trip x (records_in (fields_of file) s.now) }
{
    let i = lower(file, s, order, key_of(line, trip, x), order.len());
    if i == 0 {
        return 0;
    }
    number_if_of_trip(file, s, order[i - 1] as usize, line, trip)
}

// The same number record by record.
fn number_by_search(file: u64, s: &[u8], line: u64, trip: u64, x: u64) -> u64
    requires { KeyFile file s.now × (length (key_fields file) ≡ 3) × (line < none) × (trip < none) }
    ensures { result ≡ previous_number file line trip x (records_in (fields_of file) s.now) }
{
    let hi = line * 1000000000 + trip;
    let mut most: u64 = 0;
    let mut at: usize = 0;
    while at < s.len() {
        most = nearer(most, hi, x, key_at(file, s, at));
        at = line_after(s, at);
    }
    most
}

// The trip's record with the number that is one less than y, for 0 none: of several with one key, which an index may name, the first.
fn with_number(
    file: u64,
    s: &[u8],
    rises: bool,
    part: &[u32],
    last: usize,
    line: u64,
    trip: u64,
    y: u64,
) -> Option<usize>
    requires { Asks file s.now rises part.now last 3 × (line < none) × (trip < none) × (y ≤ none) }
    ensures { result ≡ with_number file line trip y (records_in (fields_of file) s.now) }
{
    if y == 0 {
        return None;
    }
    with_three(file, s, rises, part, last, line, trip, y - 1)
}

// The record in whichever way serves.
fn previous_below(
    file: u64,
    s: &[u8],
    rises: bool,
    part: &[u32],
    last: usize,
    line: u64,
    trip: u64,
    x: u64,
) -> Option<usize>
    requires { Asks file s.now rises part.now last 3 × (line < none) × (trip < none) × (x ≤ none) }
    ensures { result ≡ previous_of file line trip x (records_in (fields_of file) s.now) }
{
    if rises {
        return among_rising(file, s, last, line, trip, x);
    }
    if part.len() > 0 {
        let y = number_by_index(file, s, part, line, trip, x);
        return with_number(file, s, rises, part, last, line, trip, y);
    }
    let y = number_by_search(file, s, line, trip, x);
    with_number(file, s, rises, part, last, line, trip, y)
}

// inner: of the records of a trip, the one whose third number is the greatest below x; no number has ten digits
pub fn previous_of_trip(
    file: u64,
    s: &[u8],
    rises: bool,
    part: &[u32],
    last: usize,
    line: u64,
    trip: u64,
    x: u64,
) -> Option<usize>
    requires { Asks file s.now rises part.now last 3 × (line < none) × (trip < none) }
    ensures { result ≡ previous_of file line trip x (records_in (fields_of file) s.now) }
{
    previous_below(file, s, rises, part, last, line, trip, x.min(1000000000))
}

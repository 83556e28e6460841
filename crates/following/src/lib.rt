// The record of a trip that is next in key order, in three ways that meet one promise, `next_of`: where keys rise by bisection, by a lent index,
// record by record.
#![tactic(auto)]

ghost use Rattle.std.specs.Prelude.{◌≡◌, eqb, leb, ◌<◌, length};
ghost use Rattle.laws.specs.Tests.{pick, both};
ghost use Rattle.file.specs.Files.{fields_of};
ghost use Rattle.file.specs.Records.{records_in};
ghost use Rattle.keys.specs.Keys.{key_fields, none, lesser, next_number, next_of};
ghost use Rattle.keys.specs.KeyFiles.{KeyFile, PlaceIn, IsIndex};
ghost use Rattle.find.specs.Find.{Asks, trip_at};

use keys::{Key, key_at};
use lines::line_after;
use ordered::first_from;
use search::by_search;
use seek::lower;

// The lesser of `least` and the third number of k, if k is a key of the trip, from x on.
fn nearer(least: u64, hi: u64, x: u64, k: Key) -> u64
    ensures { result ≡ pick (both (eqb k.hi hi) (leb x k.lo)) (lesser k.lo least) least }
{
    if k.hi == hi && k.lo >= x {
        return least.min(k.lo);
    }
    least
}

// The least third number, from x on, of a trip's records: every record is looked at.
fn least_third(file: u64, s: &[u8], line: u64, trip: u64, x: u64) -> u64
    requires { KeyFile file s.now × (length (key_fields file) ≡ 3) × (line < none) × (trip < none) }
    ensures { result ≡ next_number file line trip x (records_in (fields_of file) s.now) }
{
    let hi = line * 1000000000 + trip;
    let mut least: u64 = 1000000000;
    let mut at: usize = 0;
    while at < s.len() {
        least = nearer(least, hi, x, key_at(file, s, at));
        at = line_after(s, at);
    }
    least
}

// inner: the record at a place, if it is one of the trip's
pub fn if_of_trip(file: u64, s: &[u8], at: usize, line: u64, trip: u64) -> Option<usize>
    requires { KeyFile file s.now × (length (key_fields file) ≡ 3) × PlaceIn file s.now at × (line < none) × (trip < none) }
    ensures { result ≡ trip_at file line trip s.now at }
{
    if at < s.len() && key_at(file, s, at).hi == line * 1000000000 + trip {
        return Some(at);
    }
    None
}

// Record by record: first the number, then its record.
fn next_by_search(file: u64, s: &[u8], line: u64, trip: u64, x: u64) -> Option<usize>
    requires { KeyFile file s.now × (length (key_fields file) ≡ 3) × (line < none) × (trip < none) }
    ensures { result ≡ next_of file line trip x (records_in (fields_of file) s.now) }
{
    let y = least_third(file, s, line, trip, x);
    if y == 1000000000 {
        return None;
    }
    let k = Key {
        hi: line * 1000000000 + trip,
        lo: y,
    };
    by_search(file, s, k)
}

// By an index.
fn next_by_index(file: u64, s: &[u8], order: &[u32], line: u64, trip: u64, x: u64) -> Option<usize>
    requires { KeyFile file s.now × (length (key_fields file) ≡ 3) × IsIndex file s.now order.now × (line < none) × (trip < none) × (x < none) }
    ensures { result ≡ next_of file line trip x (records_in (fields_of file) s.now) }
{
    let k = Key {
        hi: line * 1000000000 + trip,
        lo: x,
    };
    let i = lower(file, s, order, k, order.len());
    if i >= order.len() {
        return None;
    }
    if_of_trip(file, s, order[i] as usize, line, trip)
}

// The same in whichever way serves.
fn next_below(
    file: u64,
    s: &[u8],
    rises: bool,
    part: &[u32],
    last: usize,
    line: u64,
    trip: u64,
    x: u64,
) -> Option<usize>
    requires { Asks file s.now rises part.now last 3 × (line < none) × (trip < none) × (x < none) }
    ensures { result ≡ next_of file line trip x (records_in (fields_of file) s.now) }
{
    if rises {
        let k = Key {
            hi: line * 1000000000 + trip,
            lo: x,
        };
        let at = first_from(file, s, last, k);
        return if_of_trip(file, s, at, line, trip);
    }
    if part.len() > 0 {
        return next_by_index(file, s, part, line, trip, x);
    }
    next_by_search(file, s, line, trip, x)
}

// inner: of the records of a trip, the one whose third number is the least from x on; no number has ten digits
pub fn next_of_trip(
    file: u64,
    s: &[u8],
    rises: bool,
    part: &[u32],
    last: usize,
    line: u64,
    trip: u64,
    x: u64,
) -> Option<usize>
    requires { Asks file s.now rises part.now last 3 × (line < none) × (trip < none) }
    ensures { result ≡ next_of file line trip x (records_in (fields_of file) s.now) }
{
    if x >= 1000000000 {
        return None;
    }
    next_below(file, s, rises, part, last, line, trip, x)
}

// The looks of a search for the record of a trip that comes before some number in key order: the key to look for, the number of one record, the
// start of the line before. `preceding` makes the search of them.
#![tactic(auto)]

ghost use Rattle.std.specs.Prelude.{◌≡◌, ◌+◌, ◌*◌, ◌-◌, ◌≤◌, ◌<◌, eqb, ltb, length, get_or};
ghost use Rattle.laws.specs.Tests.{pick, both};
ghost use Rattle.keys.specs.Keys.{key_fields, none};
ghost use Rattle.keys.specs.Ranks.{KeyIs};
ghost use Rattle.keys.specs.KeyFiles.{KeyFile, PlaceIn};
ghost use Rattle.previous.specs.Previous.{greater};
ghost use Rattle.previous.specs.Steps.{LineBefore, number_at};

use keys::{Key, key_at};

// inner: the trip's key with the third number x; where x is above every number, the first key behind the trip
pub fn key_of(line: u64, trip: u64, x: u64) -> Key
    requires { (line < none) × (trip < none) × (x ≤ none) }
    ensures { KeyIs ((line * none + trip) * none + x) result }
{
    let hi = line * 1000000000 + trip;
    if x == 1000000000 {
        return Key { hi: hi + 1, lo: 0 };
    }
    Key { hi, lo: x }
}

// inner: one more than the third number of the record at a place, if it is one of the trip's; else 0
pub fn number_if_of_trip(file: u64, s: &[u8], at: usize, line: u64, trip: u64) -> u64
    requires { KeyFile file s.now × (length (key_fields file) ≡ 3) × PlaceIn file s.now at × (at < length s.now) × (line < none) × (trip < none) }
    ensures { result ≡ number_at file line trip s.now at }
{
    let k = key_at(file, s, at);
    if k.hi == line * 1000000000 + trip {
        return k.lo + 1;
    }
    0
}

// inner: the start of the line that ends before `at`
pub fn line_before(s: &[u8], at: usize) -> usize
    requires { (0 < at) × (at ≤ length s.now) × (get_or s.now (at - 1) 0 ≡ 10) }
    ensures { LineBefore s.now at result }
{
    for i in (1..at).rev() {
        if s[i - 1] == b'\n' {
            return i;
        }
    }
    0
}

// inner: the greater of `most` and one more than the third number of k, if k is a key of the trip, below x
pub fn nearer(most: u64, hi: u64, x: u64, k: Key) -> u64
    requires { k.lo < none }
    ensures { result ≡ pick (both (eqb k.hi hi) (ltb k.lo x)) (greater (k.lo + 1) most) most }
{
    if k.hi == hi && k.lo < x {
        return most.max(k.lo + 1);
    }
    most
}

// The keys of records that were cut, one behind another: each is above the one before it.
#![tactic(auto)]

ghost use Rattle.std.specs.Prelude.{◌≡◌, true, ◌≤◌, ◌<◌};
ghost use Rattle.rules.specs.Texts.{texts, Kinded};
ghost use Rattle.keys.specs.Keys.{none};
ghost use Rattle.keys.specs.Ranks.{IsKeyed, KeyIs, rank_of};
ghost use Rattle.ascent.specs.Ascent.{KeyFor, Follows};

use amiss::number_of;
use keys::{Key, less};
use walk::CutRecord;

// The key of a record that was cut, in a file that has keys.
fn keyed(file: u64, row: CutRecord) -> Key
    requires { IsKeyed file × Kinded file row.bytes.now row.places.now }
    ensures { KeyIs (rank_of file (texts file row.entry.bytes.now row.entry.places.now)) result }
{
    let a = number_of(file, row, 1);
    if file < 6 {
        return Key { hi: a, lo: 0 };
    }
    let b = number_of(file, row, 2);
    let hi = a * 1000000000 + b;
    if file < 8 || file == 9 {
        return Key { hi, lo: 0 };
    }
    let c = number_of(file, row, 3);
    Key { hi, lo: c }
}

// inner: the same in any file: nothing is said of what it is where there are no keys
pub fn key_of(file: u64, row: CutRecord) -> Key
    requires { (2 ≤ file) × Kinded file row.bytes.now row.places.now }
    ensures { KeyFor file (texts file row.entry.bytes.now row.entry.places.now) result }
{
    if file > 10 {
        return Key { hi: 0, lo: 0 };
    }
    keyed(file, row)
}

// inner: whether the record at this place may have the key k, where the one before it has the key `last`; none stands before the record at 0
pub fn follows(file: u64, at: usize, last: Key, k: Key) -> bool
    requires { (last.lo < none) × (k.lo < none) }
    ensures { result ≡ true → Follows file at last k }
{
    file > 10 || at == 0 || less(last, k)
}

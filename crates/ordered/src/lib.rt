// Files whose keys rise from record to record: one pass tells, and then a record is found by bisection on the file's bytes, with no memory
// beside them. All of it is inner.
#![tactic(auto)]

ghost use Rattle.std.specs.Prelude.{◌≡◌, ◌<◌};
ghost use Rattle.file.specs.Files.{fields_of};
ghost use Rattle.file.specs.Records.{records_in};
ghost use Rattle.keys.specs.Keys.{none};
ghost use Rattle.keys.specs.Ranks.{rank_of, rank_key};
ghost use Rattle.lines.specs.Order.{is_rising, first_from};
ghost use Rattle.keys.specs.KeyFiles.{KeyFile, KeysRise, PlaceIn};

use bisection::{bisect, narrow, next_of};
use keys::{Key, equal, key_at, less};
use looks::Left;

// inner: whether every key is above those before it
pub fn rising(file: u64, s: &[u8]) -> bool
    requires { KeyFile file s.now }
    ensures { result ≡ is_rising (rank_of file) (records_in (fields_of file) s.now) }
{
    if s.is_empty() {
        return true;
    }
    let mut last = key_at(file, s, 0);
    let mut at = next_of(file, s, 0);
    while at < s.len() {
        let k = key_at(file, s, at);
        if !less(last, k) {
            return false;
        }
        last = k;
        at = next_of(file, s, at);
    }
    true
}

// inner: the first record whose key isn't below x, with the place that was found last and the one behind it tried first: neighbouring records ask
// neighbouring questions
pub fn first_from(file: u64, s: &[u8], last: usize, x: Key) -> usize
    requires { KeyFile file s.now × KeysRise file s.now × PlaceIn file s.now last × (x.lo < none) }
    ensures { result ≡ first_from (rank_of file) (rank_key x) 0 (records_in (fields_of file) s.now) }
{
    if last >= s.len() {
        return bisect(file, s, s.len(), 0, x);
    }
    let k = key_at(file, s, last);
    if equal(k, x) {
        return last;
    }
    if !less(k, x) {
        return bisect(file, s, last, k.hi, x);
    }
    let next = next_of(file, s, last);
    if next >= s.len() {
        return next;
    }
    let j = key_at(file, s, next);
    if !less(j, x) {
        return next;
    }
    let left = Left {
        lo: next,
        hi: s.len(),
        below: j.hi,
        above: 0,
    };
    narrow(file, s, left, x)
}

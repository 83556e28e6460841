// A record by its key, in three ways that meet one promise, the first record whose key has the rank: where keys rise, the place that was found last and
// the one behind it are tried, then bisection; by a lent index; record by record. Which of them serves is seen in the crate `find`.
#![tactic(auto)]

ghost use Rattle.std.specs.Prelude.{◌≡◌, ◌<◌};
ghost use Rattle.file.specs.Files.{fields_of};
ghost use Rattle.file.specs.Records.{records_in};
ghost use Rattle.keys.specs.Keys.{none};
ghost use Rattle.keys.specs.Ranks.{rank_of, rank_key};
ghost use Rattle.lines.specs.Order.{first_ranked};
ghost use Rattle.keys.specs.KeyFiles.{KeyFile, KeysRise, PlaceIn, IsIndex};
ghost use Rattle.seek.specs.Seek.{Lower};

use keys::{Key, equal, key_at};
use lines::line_after;
use ordered::first_from;

// inner: where keys rise
pub fn among_rising(file: u64, s: &[u8], last: usize, k: Key) -> Option<usize>
    requires { KeyFile file s.now × KeysRise file s.now × PlaceIn file s.now last × (k.lo < none) }
    ensures { result ≡ first_ranked (rank_of file) (rank_key k) 0 (records_in (fields_of file) s.now) }
{
    let first = first_from(file, s, last, k);
    if first < s.len() && equal(key_at(file, s, first), k) {
        return Some(first);
    }
    None
}

// inner: by an index, at its first entry whose key isn't below k
pub fn at_entry(file: u64, s: &[u8], order: &[u32], k: Key, i: usize) -> Option<usize>
    requires { KeyFile file s.now × IsIndex file s.now order.now × Lower file s.now order.now (rank_key k) i × (k.lo < none) }
    ensures { result ≡ first_ranked (rank_of file) (rank_key k) 0 (records_in (fields_of file) s.now) }
{
    if i >= order.len() {
        return None;
    }
    let place = order[i] as usize;
    if equal(key_at(file, s, place), k) {
        return Some(place);
    }
    None
}

// inner: record by record
pub fn by_search(file: u64, s: &[u8], k: Key) -> Option<usize>
    requires { KeyFile file s.now × (k.lo < none) }
    ensures { result ≡ first_ranked (rank_of file) (rank_key k) 0 (records_in (fields_of file) s.now) }
{
    let mut at = 0;
    while at < s.len() {
        if equal(key_at(file, s, at), k) {
            return Some(at);
        }
        at = line_after(s, at);
    }
    None
}

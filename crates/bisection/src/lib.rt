// A record of a file whose keys rise, by bisection on the file's bytes, with no memory beside them. All of it is inner.
#![tactic(auto)]

ghost use Rattle.std.specs.Prelude.{◌≡◌, ◌≤◌, ◌<◌, length};
ghost use Rattle.file.specs.Files.{fields_of};
ghost use Rattle.lines.specs.Lines.{behind};
ghost use Rattle.file.specs.Records.{records_in};
ghost use Rattle.keys.specs.Keys.{none};
ghost use Rattle.keys.specs.Ranks.{rank_of, rank_key};
ghost use Rattle.lines.specs.Order.{first_from};
ghost use Rattle.keys.specs.KeyFiles.{KeyFile, KeysRise, PlaceIn, records_from};
ghost use Rattle.bisection.specs.Narrowing.{Sought, Narrows, Narrowed};

use file::fields_of;
use keys::{Key, key_at, less};
use lines::{line_after, record_after};
use looks::{Left, next_look, wider};

// inner: the place behind the record that starts at `at`
pub fn next_of(file: u64, s: &[u8], at: usize) -> usize
    requires { KeyFile file s.now × PlaceIn file s.now at × (at < length s.now) }
    ensures { result ≡ behind s.now at }
{
    record_after(s, at, fields_of(file))
}

// The first record from `from` on whose key isn't below x, or the file's end.
fn scan(file: u64, s: &[u8], from: usize, x: Key) -> usize
    requires { KeyFile file s.now × PlaceIn file s.now from × (x.lo < none) }
    ensures { result ≡ first_from (rank_of file) (rank_key x) from (records_from file s.now from) }
{
    let mut at = from;
    while at < s.len() {
        if !less(key_at(file, s, at), x) {
            return at;
        }
        at = next_of(file, s, at);
    }
    at
}

// One look: at the record behind the next LF from `mid` on.
fn look(file: u64, s: &[u8], left: Left, mid: usize, x: Key) -> Left
    requires { Narrows file s.now (rank_key x) left.lo left.hi mid × (x.lo < none) }
    ensures { Narrowed file s.now (rank_key x) left.lo left.hi result.lo result.hi }
{
    let to = line_after(s, mid);
    if to >= left.hi {
        return Left { hi: mid, ..left };
    }
    let k = key_at(file, s, to);
    if less(k, x) {
        return Left {
            lo: to,
            below: k.hi,
            ..left
        };
    }
    Left {
        hi: mid,
        above: k.hi,
        ..left
    }
}

// The first key of a file, where there is something to bisect.
fn first_key(file: u64, s: &[u8], hi: usize) -> u64
    requires { KeyFile file s.now × (hi ≤ length s.now) }
{
    if hi <= 128 {
        return 0;
    }
    key_at(file, s, 0).hi
}

// inner: the first record of the whole file whose key isn't below x, by bisection: behind the next LF from a place on a record starts. The looks go
// where the keys that were seen let expect x; the last few bytes are gone through.
pub fn narrow(file: u64, s: &[u8], from: Left, x: Key) -> usize
    requires { KeyFile file s.now × KeysRise file s.now × Sought file s.now (rank_key x) 0 from.lo × (from.hi ≤ length s.now) × (x.lo < none) }
    ensures { result ≡ first_from (rank_of file) (rank_key x) 0 (records_in (fields_of file) s.now) }
{
    let mut left = from;
    let mut margin: usize = 128;
    while left.lo + 128 < left.hi {
        let mid = next_look(left, x.hi, margin);
        left = look(file, s, left, mid, x);
        margin = wider(margin);
    }
    scan(file, s, left.lo, x)
}

// inner: the same, expected before `hi`, where the key `above` was seen, or 0
pub fn bisect(file: u64, s: &[u8], hi: usize, above: u64, x: Key) -> usize
    requires { KeyFile file s.now × KeysRise file s.now × (hi ≤ length s.now) × (x.lo < none) }
    ensures { result ≡ first_from (rank_of file) (rank_key x) 0 (records_in (fields_of file) s.now) }
{
    let below = first_key(file, s, hi);
    let whole = Left {
        lo: 0,
        hi,
        below,
        above,
    };
    narrow(file, s, whole, x)
}

// Files in any order, with a list that the caller lends: the places where the records start, in the order of their keys. The list is a hint:
// it may hold anything, it is looked at once, and no answer depends on it. All of it is inner.
#![tactic(auto)]

ghost use Rattle.std.specs.Prelude.{◌≡◌, true, ◌<◌, ◌^◌, length};
ghost use Rattle.file.specs.Files.{fields_of};
ghost use Rattle.file.specs.Records.{records_in};
ghost use Rattle.keys.specs.Keys.{none};
ghost use Rattle.keys.specs.Ranks.{rank_of, rank_key};
ghost use Rattle.lines.specs.Index.{Start};
ghost use Rattle.keys.specs.KeyFiles.{KeyFile};
ghost use Rattle.hinted.specs.Hinted.{Goes, Looked};

use ahead::list_goes_on;
use keys::{Key, key_at, less};

// Whether a record starts at x: at the file's start, or behind an LF.
fn is_start(file: u64, s: &[u8], x: usize) -> bool
    requires { KeyFile file s.now × (x < 2 ^ 32) }
    ensures { result ≡ true → Start (fields_of file) (rank_of file) s.now x }
{
    x < s.len() && (x == 0 || s[x - 1] == b'\n')
}

// How a record with key k at x goes behind one with key j at w: 0 if it doesn't, 1 with the same key, 2 with one above.
fn step(j: Key, w: usize, k: Key, x: usize) -> usize
    requires { (j.lo < none) × (k.lo < none) × (w < 2 ^ 32) × (x < 2 ^ 32) }
    ensures { Goes (rank_key j) w (rank_key k) x result }
{
    if less(j, k) {
        return 2;
    }
    if less(k, j) {
        return 0;
    }
    if w < x {
        return 1;
    }
    0
}

// inner: looks at a list once. As many entries as records, each where a record starts, no two the same: so none is missing
pub fn look_at(file: u64, s: &[u8], order: &[u32]) -> usize
    requires { KeyFile file s.now × (length order.now ≡ length (records_in (fields_of file) s.now)) }
    ensures { Looked file s.now order.now result }
{
    if order.is_empty() {
        return 2;
    }
    let mut was = order[0] as usize;
    if !is_start(file, s, was) {
        return 0;
    }
    let mut last = key_at(file, s, was);
    let mut kind: usize = 2;
    for i in 1..order.len() {
        let x = order[i] as usize;
        if !list_goes_on(s, order, i) || !is_start(file, s, x) {
            return 0;
        }
        let k = key_at(file, s, x);
        let how = step(last, was, k, x);
        if how == 0 {
            return 0;
        }
        kind = kind.min(how);
        was = x;
        last = k;
    }
    kind
}

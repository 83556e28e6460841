// The first entry of an index whose key isn't below one that is sought. An index is a lent list that was looked at (`hinted`): where the records of a file
// start, in the order of their keys. All of it is inner.
#![tactic(auto)]

ghost use Rattle.std.specs.Prelude.{◌≡◌, ◌-◌, ◌≤◌, ◌<◌, ltb, length};
ghost use Rattle.keys.specs.Keys.{none};
ghost use Rattle.keys.specs.Ranks.{KeyIs, rank_key};
ghost use Rattle.keys.specs.KeyFiles.{KeyFile, IsIndex, entry_rank};
ghost use Rattle.seek.specs.Seek.{Between, Lower};

use keys::{Key, key_at, less};
use looks::{Left, next_look, wider};

// The key at an entry.
fn entry_key(file: u64, s: &[u8], order: &[u32], i: usize) -> Key
    requires { KeyFile file s.now × IsIndex file s.now order.now × (i < length order.now) }
    ensures { KeyIs (entry_rank file s.now order.now i) result }
{
    key_at(file, s, order[i] as usize)
}

// Whether it is below x.
fn is_below(file: u64, s: &[u8], order: &[u32], x: Key, i: usize) -> bool
    requires { KeyFile file s.now × IsIndex file s.now order.now × (x.lo < none) × (i < length order.now) }
    ensures { result ≡ ltb (entry_rank file s.now order.now i) (rank_key x) }
{
    less(entry_key(file, s, order, i), x)
}

// One look, at an entry between the two.
fn look(file: u64, s: &[u8], order: &[u32], left: Left, mid: usize, x: Key) -> Left
    requires { KeyFile file s.now × IsIndex file s.now order.now × (x.lo < none) × Between file s.now order.now (rank_key x) left.lo left.hi × (left.lo ≤ mid) × (mid < left.hi) }
    ensures { Between file s.now order.now (rank_key x) result.lo result.hi × (result.hi - result.lo < left.hi - left.lo) }
{
    let k = entry_key(file, s, order, mid);
    if less(k, x) {
        return Left {
            lo: mid + 1,
            below: k.hi,
            ..left
        };
    }
    Left {
        hi: mid,
        above: k.hi,
        ..left
    }
}

// Where a search between two entries begins. Where there are many, the keys of the first and the last let expect where x stands.
fn begin(file: u64, s: &[u8], order: &[u32], from: usize, end: usize) -> Left
    requires { KeyFile file s.now × IsIndex file s.now order.now × (from ≤ end) × (end ≤ length order.now) }
    ensures { (result.lo ≡ from) × (result.hi ≡ end) }
{
    if end - from < 64 {
        return Left {
            lo: from,
            hi: end,
            below: 0,
            above: 0,
        };
    }
    let first = entry_key(file, s, order, from);
    let last = entry_key(file, s, order, end - 1);
    Left {
        lo: from,
        hi: end,
        below: first.hi,
        above: last.hi,
    }
}

// The first entry of an index whose key isn't below x, or how many entries there are, where it is known to stand between two entries.
fn lower_within(file: u64, s: &[u8], order: &[u32], x: Key, from: usize, end: usize) -> usize
    requires { KeyFile file s.now × IsIndex file s.now order.now × (x.lo < none) × Between file s.now order.now (rank_key x) from end }
    ensures { Lower file s.now order.now (rank_key x) result }
{
    let mut left = begin(file, s, order, from, end);
    let mut margin: usize = 1;
    while left.lo < left.hi {
        let mid = next_look(left, x.hi, margin);
        left = look(file, s, order, left, mid, x);
        margin = wider(margin);
    }
    left.lo
}

// The same where it is no entry before `from`: that one is tried first.
fn lower_from(file: u64, s: &[u8], order: &[u32], x: Key, from: usize) -> usize
    requires { KeyFile file s.now × IsIndex file s.now order.now × (x.lo < none) × Between file s.now order.now (rank_key x) from (length order.now) }
    ensures { Lower file s.now order.now (rank_key x) result }
{
    if from < order.len() && is_below(file, s, order, x, from) {
        return lower_within(file, s, order, x, from + 1, order.len());
    }
    from
}

// The same where it is no entry behind `end`: the one before is tried first.
fn lower_till(file: u64, s: &[u8], order: &[u32], x: Key, end: usize) -> usize
    requires { KeyFile file s.now × IsIndex file s.now order.now × (x.lo < none) × Between file s.now order.now (rank_key x) 0 end }
    ensures { Lower file s.now order.now (rank_key x) result }
{
    if end == 0 || is_below(file, s, order, x, end - 1) {
        return end;
    }
    lower_within(file, s, order, x, 0, end - 1)
}

// inner: the first entry of an index whose key isn't below x, or how many entries there are. Walks ask for the entry at or beside the one
// that was found last: `near` is where to look first, any number, and the answer is the same with each
pub fn lower(file: u64, s: &[u8], order: &[u32], x: Key, near: usize) -> usize
    requires { KeyFile file s.now × IsIndex file s.now order.now × (x.lo < none) }
    ensures { Lower file s.now order.now (rank_key x) result }
{
    if near >= order.len() {
        return lower_within(file, s, order, x, 0, order.len());
    }
    if is_below(file, s, order, x, near) {
        return lower_from(file, s, order, x, near + 1);
    }
    lower_till(file, s, order, x, near)
}

// A record by its key, in three ways that meet one promise, `first_with`: the first record that has the key, by its place, or none. Where keys
// rise, the place that was found last and the one behind it are tried, then bisection; else a lent index, if there is one; else every record.
#![tactic(auto)]

ghost use Rattle.std.specs.Prelude.{◌≡◌, [], ◌∷◌, ◌<◌, length};
ghost use Rattle.file.specs.Files.{fields_of};
ghost use Rattle.file.specs.Records.{records_in};
ghost use Rattle.keys.specs.Keys.{key_of, none, has, first_with};
ghost use Rattle.keys.specs.Ranks.{rank_of, rank_key, record_at};
ghost use Rattle.lines.specs.Order.{first_ranked};
ghost use Rattle.keys.specs.KeyFiles.{PlaceIn};
ghost use Rattle.find.specs.Find.{Serves, Asks};

use keys::{Key, key_at};
use search::{among_rising, at_entry, by_search};
use seek::lower;

// What was found, and the entry of the index that led to it: the next search looks there first, and nothing is promised of it.
#[derive(Clone, Copy)]
pub struct Hit {
    pub found: Option<usize>,
    pub entry: usize,
}

// In whichever way serves; `near` is the entry to look at first, any number.
fn first_ranked(
    file: u64,
    s: &[u8],
    rises: bool,
    part: &[u32],
    last: usize,
    near: usize,
    k: Key,
) -> Hit
    requires { Serves file s.now rises part.now × PlaceIn file s.now last × (k.lo < none) }
    ensures { result.found ≡ first_ranked (rank_of file) (rank_key k) 0 (records_in (fields_of file) s.now) }
{
    if rises {
        return Hit {
            found: among_rising(file, s, last, k),
            entry: near,
        };
    }
    if part.len() > 0 {
        let entry = lower(file, s, part, k, near);
        return Hit {
            found: at_entry(file, s, part, k, entry),
            entry,
        };
    }
    Hit {
        found: by_search(file, s, k),
        entry: near,
    }
}

// inner: the first record whose key is the number a
pub fn with_one(
    file: u64,
    s: &[u8],
    rises: bool,
    part: &[u32],
    last: usize,
    near: usize,
    a: u64,
) -> Hit
    requires { Asks file s.now rises part.now last 1 × (a < none) }
    ensures { result.found ≡ first_with file (a ∷ []) 0 (records_in (fields_of file) s.now) }
{
    first_ranked(file, s, rises, part, last, near, Key { hi: a, lo: 0 })
}

// inner: the numbers a and b
pub fn with_two(
    file: u64,
    s: &[u8],
    rises: bool,
    part: &[u32],
    last: usize,
    near: usize,
    a: u64,
    b: u64,
) -> Hit
    requires { Asks file s.now rises part.now last 2 × (a < none) × (b < none) }
    ensures { result.found ≡ first_with file (a ∷ b ∷ []) 0 (records_in (fields_of file) s.now) }
{
    let k = Key {
        hi: a * 1000000000 + b,
        lo: 0,
    };
    first_ranked(file, s, rises, part, last, near, k)
}

// inner: the numbers a, b and c
pub fn with_three(
    file: u64,
    s: &[u8],
    rises: bool,
    part: &[u32],
    last: usize,
    a: u64,
    b: u64,
    c: u64,
) -> Option<usize>
    requires { Asks file s.now rises part.now last 3 × (a < none) × (b < none) × (c < none) }
    ensures { result ≡ first_with file (a ∷ b ∷ c ∷ []) 0 (records_in (fields_of file) s.now) }
{
    let hi = a * 1000000000 + b;
    let k = Key { hi, lo: c };
    first_ranked(file, s, rises, part, last, part.len(), k).found
}

// inner: whether a record before the one that starts at `at` has its key
pub fn used_before(file: u64, s: &[u8], rises: bool, part: &[u32], at: usize) -> bool
    requires { Serves file s.now rises part.now × PlaceIn file s.now at × (at < length s.now) }
    ensures { (p : PlaceIn file s.now at) → result ≡ has file (key_of file (record_at file s.now at)) p.past }
{
    let hit = first_ranked(file, s, rises, part, at, part.len(), key_at(file, s, at));
    match hit.found {
        Some(first) => first < at,
        None => false,
    }
}

// A record of a batch by its key: each search goes the way of its file, as `routes` has made it out.
#![tactic(auto)]

ghost use Rattle.std.specs.Prelude.{◌≡◌, [], ◌∷◌, ◌+◌, ◌≤◌, ◌<◌, length, get_or, set};
ghost use Rattle.keys.specs.Keys.{key_fields, none, first_with};
ghost use Rattle.keys.specs.Ranks.{IsKeyed};
ghost use Rattle.thirteen.specs.Batch.{records_of};
ghost use Rattle.thirteen.specs.Lent.{batch_of};
ghost use Rattle.lookup.specs.Ways.{Lasts, Looks, from_of, to_of, part_of, found_or};

use find::{Hit, with_one, with_two};
use thirteen::{Files, file_of};

// The ways to the records of a batch's keyed files: the lent list, and three numbers for each file, how its records are found and where its part
// of the list begins and ends.
#[derive(Clone, Copy)]
pub struct Paths<'a, 'b> {
    pub order: &'a [u32],
    pub ways: &'b [usize],
}

// inner: the part of the list that is a file's index; empty if there is none
pub fn index_of<'o>(paths: Paths<'o, '_>, file: u64) -> &'o [u32]
    requires { (file < 11) × (33 ≤ length paths.ways.now) × (from_of paths.ways.now file ≤ to_of paths.ways.now file) × (to_of paths.ways.now file ≤ length paths.order.now) }
    ensures { result.now ≡ part_of paths.entry.order.now (from_of paths.entry.ways.now file) (to_of paths.entry.ways.now file) }
{
    let i = (file as usize) * 3;
    let from = paths.ways[i + 1];
    let to = paths.ways[i + 2];
    &paths.order[from..to]
}

// What a search found. The next search of the file begins there, or where one was found before, and at the entry that led to it.
fn remember(hit: Hit, i: usize, last: &mut [usize]) -> Option<usize>
    requires { (i < 11) × (22 ≤ length last.old) }
    ensures { (result ≡ hit.found) × (last.new ≡ set (set last.old i (found_or hit.found (get_or last.old i 0))) (i + 11) hit.entry) }
{
    last[i] = hit.found.unwrap_or(last[i]);
    last[i + 11] = hit.entry;
    hit.found
}

// inner: the first record of a file whose key is one number
pub fn look_one(file: u64, a: u64, files: &Files, paths: Paths, last: &mut [usize]) -> Option<usize>
    requires { Looks (batch_of files.now) paths.order.now paths.ways.now last.old × IsKeyed file × (length (key_fields file) ≡ 1) × (a < none) }
    ensures { (result ≡ first_with file (a ∷ []) 0 (records_of (batch_of files.now) file)) × Lasts (batch_of files.now) last.new }
{
    let s = file_of(file, files);
    let i = file as usize;
    let rises = paths.ways[i * 3] == 1;
    let part = index_of(paths, file);
    let hit = with_one(file, s, rises, part, last[i], last[i + 11], a);
    remember(hit, i, last)
}

// inner: the same by two numbers
pub fn look_two(
    file: u64,
    a: u64,
    b: u64,
    files: &Files,
    paths: Paths,
    last: &mut [usize],
) -> Option<usize>
    requires { Looks (batch_of files.now) paths.order.now paths.ways.now last.old × IsKeyed file × (length (key_fields file) ≡ 2) × (a < none) × (b < none) }
    ensures { (result ≡ first_with file (a ∷ b ∷ []) 0 (records_of (batch_of files.now) file)) × Lasts (batch_of files.now) last.new }
{
    let s = file_of(file, files);
    let i = file as usize;
    let rises = paths.ways[i * 3] == 1;
    let part = index_of(paths, file);
    let hit = with_two(file, s, rises, part, last[i], last[i + 11], a, b);
    remember(hit, i, last)
}

// Whether nothing is wrong with any record of a file whose keys are all different, by its index or in its own order: then it has no first fault.
#![tactic(auto)]

ghost use Rattle.std.specs.Prelude.{◌≡◌, true, [], ◌≤◌, length};
ghost use Rattle.laws.specs.Numbered.{answered};
ghost use Rattle.link.specs.Stage.{link_fault};
ghost use Rattle.lookup.specs.Ways.{Lasts, how_of, apart};
ghost use Rattle.thirteen.specs.Lent.{batch_of};
ghost use Rattle.recall.specs.Recall.{Recalls};
ghost use Rattle.amiss.specs.Sound.{Known};

use ahead::list_goes_on;
use clip::cut;
use file::fields_of;
use lookup::{Paths, index_of};
use recall::record_met;
use thirteen::{Files, file_of};
use walk::CutRecord;

// inner: whether nothing is wrong with any record of a file, gone through in the order of its index, whose keys are all different; false too where it
// has no such index. Its keys rise there, so what its records link to is mostly where it was found last.
pub fn all_fit(
    file: u64,
    files: &Files,
    paths: Paths,
    last: &mut [usize],
    table: &mut [u64],
) -> bool
    requires { (2 ≤ file) × (file ≤ 13) × Known (batch_of files.now) file paths.order.now paths.ways.now last.old × Recalls (batch_of files.now) table.old }
    ensures { (result ≡ true → link_fault (batch_of files.now) file ≡ answered []) × Lasts (batch_of files.now) last.new × Recalls (batch_of files.now) table.new }
{
    if file > 10 || paths.ways[(file as usize) * 3] != 2 {
        return false;
    }
    let part = index_of(paths, file);
    if part.is_empty() {
        return false;
    }
    let s = file_of(file, files);
    let n = fields_of(file);
    let mut places: [usize; 14] = [0; 14];
    for i in 0..part.len() {
        if !list_goes_on(s, part, i) {
            return false;
        }
        cut(s, part[i] as usize, n, &mut places);
        let row = CutRecord {
            bytes: s,
            places: &places,
        };
        if !record_met(file, row, files, paths, last, table) {
            return false;
        }
    }
    true
}

// Whether no two records of a file have one key: it has no keys, or its way tells that they are all different.
fn is_apart(file: u64, ways: &[usize]) -> bool
    requires { 33 ≤ length ways.now }
    ensures { result ≡ true → file ≤ 10 → apart (how_of ways.now file) ≡ true }
{
    file > 10 || matches!(ways[(file as usize) * 3], 1 | 2)
}

// inner: the same in the order of the file's records, whose keys are all different; false too where that is not known.
pub fn all_met(
    file: u64,
    files: &Files,
    paths: Paths,
    last: &mut [usize],
    table: &mut [u64],
) -> bool
    requires { (2 ≤ file) × (file ≤ 13) × Known (batch_of files.now) file paths.order.now paths.ways.now last.old × Recalls (batch_of files.now) table.old }
    ensures { (result ≡ true → link_fault (batch_of files.now) file ≡ answered []) × Lasts (batch_of files.now) last.new × Recalls (batch_of files.now) table.new }
{
    if !is_apart(file, paths.ways) {
        return false;
    }
    let s = file_of(file, files);
    let n = fields_of(file);
    let mut places: [usize; 14] = [0; 14];
    let mut at = 0;
    while at < s.len() {
        at = cut(s, at, n, &mut places);
        let row = CutRecord {
            bytes: s,
            places: &places,
        };
        if !record_met(file, row, files, paths, last, table) {
            return false;
        }
    }
    true
}

// The first fault of a file among its keys, links and signs: document 01, refusals 7, 8 and 9, record by record: the key, then fields rising, at one field
// 8 before 9.
#![tactic(auto)]

ghost use Rattle.std.specs.Prelude.{◌≡◌, ◌≤◌};
ghost use Rattle.laws.specs.Numbered.{refused_in};
ghost use Rattle.rules.specs.Texts.{texts};
ghost use Rattle.link.specs.Stage.{amiss, field_amiss, link_fault, numbered_linked};
ghost use Rattle.lookup.specs.Ways.{Lasts};
ghost use Rattle.thirteen.specs.Lent.{batch_of};
ghost use Rattle.amiss.specs.Sound.{Known, Record, UsedAsked, Used};

use clip::cut;
use file::fields_of;
use find::used_before;
use flaw::amiss_at;
use link::Linked;
use lookup::{Paths, index_of};
use targets::links_in;
use thirteen::{Files, file_of};
use walk::CutRecord;

// The first field of a record with which something is wrong; 0 if there is none.
fn first_amiss(file: u64, row: CutRecord, files: &Files, paths: Paths, last: &mut [usize]) -> u64
    requires { Record (batch_of files.now) file row.bytes.now row.places.now paths.order.now paths.ways.now last.old }
    ensures { (result ≡ field_amiss (batch_of files.now) file (texts file row.entry.bytes.now row.entry.places.now)) × Lasts (batch_of files.now) last.new }
{
    let n = links_in(file);
    for f in 1..=n {
        if amiss_at(file, row, f, files, paths, last) != 0 {
            return f;
        }
    }
    0
}

// Whether the key of the record that starts at `at` is used by an earlier one. Where keys rise, and where an index has shown them all
// different, none is.
fn is_used(file: u64, s: &[u8], at: usize, paths: Paths) -> bool
    requires { UsedAsked file s.now at paths.order.now paths.ways.now }
    ensures { Used file s.now at result }
{
    if file > 10 {
        return false;
    }
    let how = paths.ways[(file as usize) * 3];
    if how == 1 || how == 2 {
        return false;
    }
    used_before(file, s, false, index_of(paths, file), at)
}

// The refusal of field f of record k, with which something is wrong: 8 or 9.
fn fault_at(
    file: u64,
    row: CutRecord,
    f: u64,
    k: u64,
    files: &Files,
    paths: Paths,
    last: &mut [usize],
) -> Linked
    requires { Record (batch_of files.now) file row.bytes.now row.places.now paths.order.now paths.ways.now last.old × (amiss (batch_of files.now) file (texts file row.bytes.now row.places.now) f ≡ 0 → ⊥) }
    ensures { (numbered_linked result ≡ refused_in (amiss (batch_of files.now) file (texts file row.entry.bytes.now row.entry.places.now) f) file k f) × Lasts (batch_of files.now) last.new }
{
    if amiss_at(file, row, f, files, paths, last) == 8 {
        return Linked::Dangling(file, k, f);
    }
    Linked::Misplaced(file, k, f)
}

// inner: the first fault of a file, gone through in the order of its records.
pub fn file_order_fault(file: u64, files: &Files, paths: Paths, last: &mut [usize]) -> Linked
    requires { (2 ≤ file) × (file ≤ 13) × Known (batch_of files.now) file paths.order.now paths.ways.now last.old }
    ensures { (numbered_linked result ≡ link_fault (batch_of files.now) file) × Lasts (batch_of files.now) last.new }
{
    let s = file_of(file, files);
    let n = fields_of(file);
    let mut places: [usize; 14] = [0; 14];
    let mut at = 0;
    let mut k: u64 = 1;
    while at < s.len() {
        let next = cut(s, at, n, &mut places);
        let row = CutRecord {
            bytes: s,
            places: &places,
        };
        if is_used(file, s, at, paths) {
            return Linked::Used(file, k);
        }
        let f = first_amiss(file, row, files, paths, last);
        if f != 0 {
            return fault_at(file, row, f, k, files, paths, last);
        }
        k += 1;
        at = next;
    }
    Linked::Sound
}

// Keys, links and signs: document 01, "The batch" and the permitted signs under "Fields"; refusals 7, 8 and 9. What is linked to what, and which
// signs are permitted where, stands in the crate `link`, and what is wrong with one field in `flaw`; here the batch's files are gone through in
// document 01's order, files 2-13.
#![tactic(auto)]

ghost use Rattle.std.specs.Prelude.{◌≡◌, ◌≤◌, eqb, length};
ghost use Rattle.link.specs.Stage.{link_fault, links_fault, numbered_linked};
ghost use Rattle.lookup.specs.Ways.{Ways, Looks, Lasts};
ghost use Rattle.thirteen.specs.Lent.{batch_of};
ghost use Rattle.recall.specs.Recall.{Recalls};
ghost use Rattle.amiss.specs.Sound.{SoundFiles, Known};

use faulty::file_order_fault;
use fitting::{all_fit, all_met};
use link::Linked;
use lookup::Paths;
use thirteen::Files;

// The first fault of a file. Where no record has one in any order, there is none.
fn file_fault(
    file: u64,
    files: &Files,
    paths: Paths,
    last: &mut [usize],
    table: &mut [u64],
) -> Linked
    requires { (2 ≤ file) × (file ≤ 13) × Known (batch_of files.now) file paths.order.now paths.ways.now last.old × Recalls (batch_of files.now) table.old }
    ensures { (numbered_linked result ≡ link_fault (batch_of files.now) file) × Lasts (batch_of files.now) last.new × Recalls (batch_of files.now) table.new }
{
    if all_fit(file, files, paths, last, table) || all_met(file, files, paths, last, table) {
        return Linked::Sound;
    }
    file_order_fault(file, files, paths, last)
}

// Whether nothing is wrong.
fn is_sound(found: Linked) -> bool
    ensures { result ≡ eqb (numbered_linked found).number 0 }
{
    matches!(found, Linked::Sound)
}

// The first fault of the files, in their order.
fn files_fault(files: &Files, paths: Paths, last: &mut [usize], table: &mut [u64]) -> Linked
    requires { SoundFiles (batch_of files.now) × Looks (batch_of files.now) paths.order.now paths.ways.now last.old × Recalls (batch_of files.now) table.old }
    ensures { numbered_linked result ≡ links_fault (batch_of files.now) }
{
    for file in 2..14 {
        let found = file_fault(file, files, paths, last, table);
        if !is_sound(found) {
            return found;
        }
    }
    Linked::Sound
}

// inner: the first 7, 8 or 9 of a batch whose files stand each for itself. `order` is a hint that may hold anything, and the ways were made out by it:
// no answer depends on them.
pub fn links_fault(files: &Files, paths: Paths) -> Linked
    requires { SoundFiles (batch_of files.now) × (33 ≤ length paths.ways.now) × Ways (batch_of files.now) paths.order.now paths.ways.now }
    ensures { numbered_linked result ≡ links_fault (batch_of files.now) }
{
    let mut last: [usize; 22] = [0; 22];
    let mut table: [u64; 4093] = [0; 4093];
    files_fault(files, paths, &mut last, &mut table)
}

// Links that were found to be met are remembered in a table of numbers: most records link to what one shortly before linked to. What is
// remembered is only that nothing is wrong; where something may be, the field is looked at as `flaw` does.
#![tactic(auto)]

ghost use Rattle.std.specs.Prelude.{◌≡◌, true, ◌≤◌, ◌<◌};
ghost use Rattle.file.specs.Files.{fields_of};
ghost use Rattle.field.specs.Names.{field};
ghost use Rattle.field.specs.Values.{value};
ghost use Rattle.rules.specs.Texts.{texts};
ghost use Rattle.keys.specs.Keys.{none};
ghost use Rattle.link.specs.Stage.{amiss, field_amiss};
ghost use Rattle.lookup.specs.Ways.{Lasts};
ghost use Rattle.thirteen.specs.Lent.{batch_of};
ghost use Rattle.amiss.specs.Sound.{Record};
ghost use Rattle.recall.specs.Recall.{Recalls};

use amiss::number_of;
use flaw::amiss_at;
use lookup::Paths;
use tags::{first_link, tag_at};
use targets::links_in;
use thirteen::Files;
use walk::CutRecord;

// Whether nothing is wrong with field f, where `a` is the number in field 1. A link that was found to be met is not looked for again.
fn field_met(
    file: u64,
    row: CutRecord,
    f: u64,
    a: u64,
    files: &Files,
    paths: Paths,
    last: &mut [usize],
    table: &mut [u64],
) -> bool
    requires { Record (batch_of files.now) file row.bytes.now row.places.now paths.order.now paths.ways.now last.old × Recalls (batch_of files.now) table.old × (file ≤ 13) × (a < none) × (a ≡ value (field 1 (texts file row.bytes.now row.places.now))) × (1 ≤ f) × (f ≤ fields_of file) }
    ensures { (result ≡ true → amiss (batch_of files.now) file (texts file row.entry.bytes.now row.entry.places.now) f ≡ 0) × Lasts (batch_of files.now) last.new × Recalls (batch_of files.now) table.new }
{
    let t = tag_at(file, row, f, a);
    if t == 0 {
        return true;
    }
    let slot = (t % 4093) as usize;
    if table[slot] == t {
        return true;
    }
    if amiss_at(file, row, f, files, paths, last) != 0 {
        return false;
    }
    table[slot] = t;
    true
}

// inner: whether nothing is wrong with any field of a record
pub fn record_met(
    file: u64,
    row: CutRecord,
    files: &Files,
    paths: Paths,
    last: &mut [usize],
    table: &mut [u64],
) -> bool
    requires { Record (batch_of files.now) file row.bytes.now row.places.now paths.order.now paths.ways.now last.old × Recalls (batch_of files.now) table.old × (2 ≤ file) × (file ≤ 13) }
    ensures { (result ≡ true → field_amiss (batch_of files.now) file (texts file row.entry.bytes.now row.entry.places.now) ≡ 0) × Lasts (batch_of files.now) last.new × Recalls (batch_of files.now) table.new }
{
    let n = links_in(file);
    let a = number_of(file, row, 1);
    for f in first_link(file)..=n {
        if !field_met(file, row, f, a, files, paths, last, table) {
            return false;
        }
    }
    true
}

// A file gone through once: its bytes, the kinds and rules of its records, whether their keys rise, and their links and signs, which are looked up
// in a batch whose files stand already. What is wrong, and where, is not said.
#![tactic(auto)]

ghost use Rattle.std.specs.Prelude.{◌≡◌, true, ◌≤◌, length};
ghost use Rattle.field.specs.Rules.{meets};
ghost use Rattle.rules.specs.Texts.{texts};
ghost use Rattle.link.specs.Stage.{field_amiss};
ghost use Rattle.lookup.specs.Ways.{Ways, Lasts};
ghost use Rattle.thirteen.specs.Lent.{batch_of};
ghost use Rattle.recall.specs.Recall.{Recalls};
ghost use Rattle.amiss.specs.Sound.{SoundFiles, StopsMet, Known, Record};
ghost use Rattle.passage.specs.Passage.{Passes};

use ascent::{follows, key_of};
use file::fields_of;
use keys::Key;
use lookup::Paths;
use recall::record_met;
use rules::meets_rules;
use sweep::read_on;
use thirteen::Files;
use walk::CutRecord;

// Whether a record that was cut meets its rules, and nothing is wrong with its links and signs.
fn stands_well(
    file: u64,
    row: CutRecord,
    files: &Files,
    paths: Paths,
    last: &mut [usize],
    table: &mut [u64],
) -> bool
    requires { Record (batch_of files.now) file row.bytes.now row.places.now paths.order.now paths.ways.now last.old × Recalls (batch_of files.now) table.old × (2 ≤ file) × (file ≤ 13) }
    ensures { (result ≡ true → (meets file (texts file row.entry.bytes.now row.entry.places.now) ≡ true) × (field_amiss (batch_of files.now) file (texts file row.entry.bytes.now row.entry.places.now) ≡ 0)) × Lasts (batch_of files.now) last.new × Recalls (batch_of files.now) table.new }
{
    meets_rules(file, row) && record_met(file, row, files, paths, last, table)
}

// Whether the file passes, with what is remembered of the batch in `last` and `table`.
fn passes_with(
    file: u64,
    s: &[u8],
    files: &Files,
    paths: Paths,
    last: &mut [usize],
    table: &mut [u64],
) -> bool
    requires { (2 ≤ file) × (file ≤ 13) × Known (batch_of files.now) file paths.order.now paths.ways.now last.old × Recalls (batch_of files.now) table.old }
    ensures { result ≡ true → Passes (batch_of files.now) file s.now }
{
    let n = fields_of(file);
    let mut places: [usize; 14] = [0; 14];
    let mut key = Key { hi: 0, lo: 0 };
    let mut at = 0;
    while at < s.len() {
        let Some(next) = read_on(file, s, at, n, &mut places) else {
            return false;
        };
        let row = CutRecord {
            bytes: s,
            places: &places,
        };
        let k = key_of(file, row);
        if !follows(file, at, key, k) || !stands_well(file, row, files, paths, last, table) {
            return false;
        }
        key = k;
        at = next;
    }
    true
}

// inner: whether a file, read once, is legal and sound, its keys rise, and nothing is wrong with any link or sign of its records, looked up in a batch
// whose files stand
pub fn passes(file: u64, s: &[u8], files: &Files, paths: Paths) -> bool
    requires { (2 ≤ file) × (file ≤ 13) × SoundFiles (batch_of files.now) × (33 ≤ length paths.ways.now) × Ways (batch_of files.now) paths.order.now paths.ways.now × (file ≡ 8 → StopsMet (batch_of files.now)) }
    ensures { result ≡ true → Passes (batch_of files.now) file s.now }
{
    let mut last: [usize; 22] = [0; 22];
    let mut table: [u64; 4093] = [0; 4093];
    passes_with(file, s, files, paths, &mut last, &mut table)
}

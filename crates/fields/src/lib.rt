// The first field that isn't of its kind, and the first record that breaks a rule of its own: document 01's batch order, "then 5 and 6".
// One pass over a file's records, each cut once; nothing is copied.
#![tactic(auto)]

ghost use Rattle.std.specs.Prelude.{◌≡◌};
ghost use Rattle.walk.specs.Walk.{Parted, cut_record};
ghost use Rattle.file.specs.Records.{records_in};
ghost use Rattle.field.specs.Stage.{first_unkind, field_fault};
ghost use Rattle.fields.specs.Check.{Ready, numbered_checked, CheckedIs};

use admits::admits_text;
use file::{Refusal, fields_of};
use kinds::kind_of;
use rules::meets_rules;
use walk::{CutRecord, cut, part};

// What the check of one file comes to.
#[derive(Clone, Copy)]
pub enum Checked {
    // Every field is of its kind, and every record meets its rules.
    Sound,
    // The file's own refusal.
    Refused(Refusal),
    // File, record and field: not of its kind.
    Unkind(u64, u64, u64),
    // File and record: a rule inside the record is broken.
    Broken(u64, u64),
}

// The number of the first field of a cut record that isn't of its kind; 0 if all are.
fn first_unkind(file: u64, row: CutRecord, n: usize) -> u64
    requires { Parted n row.bytes.now row.places.now }
    ensures { result ≡ first_unkind file 1 (cut_record n row.entry.bytes.now row.entry.places.now) }
{
    for i in 0..n {
        let f = (i + 1) as u64;
        if !admits_text(kind_of(file, f), part(row, i)) {
            return f;
        }
    }
    0
}

// inner: the first fault of a legal file whose records have n fields.
pub fn first_fault(file: u64, s: &[u8], n: usize) -> Checked
    requires { Ready file n s.now }
    ensures { numbered_checked result ≡ field_fault file (records_in n s.now) }
{
    let mut places: [usize; 14] = [0; 14];
    let mut at = 0;
    let mut k: u64 = 1;
    while at < s.len() {
        let next = cut(s, at, n, &mut places);
        let row = CutRecord {
            bytes: s,
            places: &places,
        };
        let f = first_unkind(file, row, n);
        if f != 0 {
            return Checked::Unkind(file, k, f);
        }
        if !meets_rules(file, row) {
            return Checked::Broken(file, k);
        }
        k += 1;
        at = next;
    }
    Checked::Sound
}

// The first fault inside one file, read by itself: its own refusal, or its first 5 or 6.
pub fn check_fields(file: u64, s: &[u8]) -> Checked
    ensures { CheckedIs file s.now result }
{
    match reader::records(file, s) {
        Err(why) => Checked::Refused(why),
        Ok(_) if file == 1 => Checked::Sound,
        Ok(_) => first_fault(file, s, fields_of(file)),
    }
}

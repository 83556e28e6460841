// One pass over a file that sees whether it is legal and sound: document 01's 2, 3, 5 and 6, where there are none. Each record is read by its file's
// reader, if it has one of its own, as those have that are long; the record's rules are tried while it is at hand. What is wrong, and where, is not said.
#![tactic(auto)]

ghost use Rattle.std.specs.Prelude.{◌≡◌, true, ◌≤◌, length, IfSome};
ghost use Rattle.readany.specs.Reads.{ReadTo};
ghost use Rattle.sweep.specs.Sweep.{Fielded, SoundFrom};

use readany::read_any;
use readnotes::{read_altdop, read_caskody, read_note};
use readtrips::{read_spoje, read_zaslinky, read_zasspoje, read_zastavky};
use rules::meets_rules;
use walk::CutRecord;

// inner: reads the record that starts at this place, as `read_any` does, by the reader of its file
pub fn read_on(
    file: u64,
    s: &[u8],
    start: usize,
    n: usize,
    places: &mut [usize; 14],
) -> Option<usize>
    requires { (start ≤ length s.now) × Fielded file n }
    ensures { IfSome result (λ next. ReadTo file n s.now start places.new next) }
{
    match file {
        2 => read_zastavky(s, start, places),
        6 => read_spoje(s, start, places),
        7 => read_zaslinky(s, start, places),
        8 => read_zasspoje(s, start, places),
        9 => read_note(9, s, start, places),
        10 => read_caskody(s, start, places),
        11 => read_altdop(s, start, places),
        13 => read_note(13, s, start, places),
        _ => read_any(file, s, start, n, places),
    }
}

// inner: whether the file, whose records have n fields, is legal and its records have no fault.
pub fn is_sound(file: u64, s: &[u8], n: usize) -> bool
    requires { Fielded file n }
    ensures { result ≡ true → SoundFrom file n s.now 0 }
{
    let mut places: [usize; 14] = [0; 14];
    let mut at = 0;
    while at < s.len() {
        let Some(next) = read_on(file, s, at, n, &mut places) else {
            return false;
        };
        let row = CutRecord {
            bytes: s,
            places: &places,
        };
        if !meets_rules(file, row) {
            return false;
        }
        at = next;
    }
    true
}

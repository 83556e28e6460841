// What is wrong with a link by the numbers of a record that was cut; the sign of a code. Fields count from 1, and texts from 0.
#![tactic(auto)]

ghost use Rattle.std.specs.Prelude.{◌≡◌, true, [], ◌∷◌, ◌<◌, length};
ghost use Rattle.laws.specs.Tests.{pick};
ghost use Rattle.field.specs.Values.{value};
ghost use Rattle.field.specs.Names.{field};
ghost use Rattle.rules.specs.Texts.{texts, Kinded};
ghost use Rattle.keys.specs.Keys.{key_fields, none, numbers, has};
ghost use Rattle.keys.specs.KeyFiles.{KeyFile, PlaceIn};
ghost use Rattle.keys.specs.Ranks.{IsKeyed, record_at};
ghost use Rattle.link.specs.Links.{met};
ghost use Rattle.link.specs.Numeric.{NumberAt};
ghost use Rattle.link.specs.Signs.{first_byte};
ghost use Rattle.lookup.specs.Ways.{Lasts};
ghost use Rattle.thirteen.specs.Batch.{records_of};
ghost use Rattle.thirteen.specs.Lent.{batch_of};
ghost use Rattle.amiss.specs.Sound.{Record, OfKind};

use field::value_of;
use link::Link;
use lookup::{Paths, look_one, look_two};
use thirteen::Files;
use walk::{CutRecord, cut, part};

// inner: the number in field f
pub fn number_of(file: u64, row: CutRecord, f: u64) -> u64
    requires { Kinded file row.bytes.now row.places.now × NumberAt file f }
    ensures { (result ≡ value (field f (texts file row.entry.bytes.now row.entry.places.now))) × (result < none) }
{
    value_of(part(row, (f - 1) as usize))
}

// inner: a link by one field
pub fn one_amiss(
    target: u64,
    file: u64,
    row: CutRecord,
    f: u64,
    files: &Files,
    paths: Paths,
    last: &mut [usize],
) -> u64
    requires { Record (batch_of files.now) file row.bytes.now row.places.now paths.order.now paths.ways.now last.old × NumberAt file f × IsKeyed target × (length (key_fields target) ≡ 1) }
    ensures { (result ≡ pick (has target (numbers (f ∷ []) (texts file row.entry.bytes.now row.entry.places.now)) (records_of (batch_of files.now) target)) 0 8) × Lasts (batch_of files.now) last.new }
{
    let a = number_of(file, row, f);
    match look_one(target, a, files, paths, last) {
        Some(_) => 0,
        None => 8,
    }
}

// inner: a link by field 1 and field f
pub fn two_amiss(
    target: u64,
    file: u64,
    row: CutRecord,
    f: u64,
    files: &Files,
    paths: Paths,
    last: &mut [usize],
) -> u64
    requires { Record (batch_of files.now) file row.bytes.now row.places.now paths.order.now paths.ways.now last.old × NumberAt file 1 × NumberAt file f × IsKeyed target × (length (key_fields target) ≡ 2) }
    ensures { (result ≡ pick (has target (numbers (1 ∷ f ∷ []) (texts file row.entry.bytes.now row.entry.places.now)) (records_of (batch_of files.now) target)) 0 8) × Lasts (batch_of files.now) last.new }
{
    let a = number_of(file, row, 1);
    let b = number_of(file, row, f);
    match look_two(target, a, b, files, paths, last) {
        Some(_) => 0,
        None => 8,
    }
}

// inner: Mistenky: a trip, unless its number is 0
pub fn seat_amiss(
    file: u64,
    row: CutRecord,
    f: u64,
    files: &Files,
    paths: Paths,
    last: &mut [usize],
) -> u64
    requires { Record (batch_of files.now) file row.bytes.now row.places.now paths.order.now paths.ways.now last.old × NumberAt file 1 × NumberAt file 2 × (f ≡ 2) }
    ensures { (result ≡ pick (met (batch_of files.now) Link.TripOrZero f (texts file row.entry.bytes.now row.entry.places.now)) 0 8) × Lasts (batch_of files.now) last.new }
{
    if number_of(file, row, f) == 0 {
        return 0;
    }
    two_amiss(6, file, row, f, files, paths, last)
}

// The stop of the line's stop that starts at a place, field 4.
fn stop_at(s: &[u8], at: usize) -> u64
    requires { KeyFile 7 s.now × OfKind 7 s.now × PlaceIn 7 s.now at × (at < length s.now) }
    ensures { result ≡ value (field 4 (record_at 7 s.now at)) }
{
    let mut places: [usize; 14] = [0; 14];
    cut(s, at, 7, &mut places);
    let row = CutRecord {
        bytes: s,
        places: &places,
    };
    value_of(part(row, 3))
}

// Whether the line's stop that was found last has this stop: then it is met already, since file 7 comes first.
fn stands_there(s: &[u8], at: usize, stop: u64) -> bool
    requires { KeyFile 7 s.now × OfKind 7 s.now × PlaceIn 7 s.now at }
    ensures { result ≡ true → (at < length s.now) × (value (field 4 (record_at 7 s.now at)) ≡ stop) }
{
    at < s.len() && stop_at(s, at) == stop
}

// inner: a link to a stop; Zasspoje's is looked at in Zaslinky first
pub fn stop_amiss(
    file: u64,
    row: CutRecord,
    f: u64,
    files: &Files,
    paths: Paths,
    last: &mut [usize],
) -> u64
    requires { Record (batch_of files.now) file row.bytes.now row.places.now paths.order.now paths.ways.now last.old × NumberAt file f }
    ensures { (result ≡ pick (has 2 (numbers (f ∷ []) (texts file row.entry.bytes.now row.entry.places.now)) (records_of (batch_of files.now) 2)) 0 8) × Lasts (batch_of files.now) last.new }
{
    if file == 8 && stands_there(files.line_stops, last[7], number_of(file, row, f)) {
        return 0;
    }
    one_amiss(2, file, row, f, files, paths, last)
}

// inner: the sign of the code that starts at a place, field 2
pub fn sign_at(s: &[u8], at: usize) -> u8
    requires { KeyFile 3 s.now × OfKind 3 s.now × PlaceIn 3 s.now at × (at < length s.now) }
    ensures { result ≡ first_byte (field 2 (record_at 3 s.now at)) }
{
    let mut places: [usize; 14] = [0; 14];
    cut(s, at, 3, &mut places);
    let row = CutRecord {
        bytes: s,
        places: &places,
    };
    let sign = part(row, 1);
    sign[0]
}

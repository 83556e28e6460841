// The signs of a trip's stop: whether it has one, and which it has of those that a sale asks for.
#![tactic(auto)]

ghost use Rattle.std.specs.Prelude.{◌≡◌, [], ℕ, ◌+◌, ◌-◌, ◌≤◌, ◌<◌, length};
ghost use Rattle.laws.specs.Tests.{both};
ghost use Rattle.file.specs.Files.{fields_of};
ghost use Rattle.file.specs.Records.{records_in};
ghost use Rattle.field.specs.Names.{field, trip_stops_file};
ghost use Rattle.field.specs.Values.{is_empty};
ghost use Rattle.keys.specs.KeyFiles.{PlaceIn};
ghost use Rattle.keys.specs.Ranks.{record_at};
ghost use Rattle.link.specs.Numeric.{CodeAt};
ghost use Rattle.link.specs.Signs.{sign_in, is_in, codes_file};
ghost use Rattle.rules.specs.Texts.{texts, Kinded};
ghost use Rattle.coded.specs.Ready.{Ready};
ghost use Rattle.trip.specs.View.{signs_from};
ghost use Rattle.marks.specs.Marks.{StopSought, line_stop_at, plain_signs, MarksOf};

use byway::by_two;
use coded::code_sign;
use field::value_of;
use lookup::Paths;
use stopmarks::{Marks, marked, with_dollar};
use walk::{CutRecord, cut, part};

// Whether one of the codes in texts `from` to `to` - 1 of a record that was cut has this sign.
fn has_code(
    x: u8,
    file: u64,
    row: CutRecord,
    from: usize,
    to: usize,
    f3: &[u8],
    paths: Paths,
) -> bool
    requires { (x ≡ 0 → ⊥) × Kinded file row.bytes.now row.places.now × ((i : ℕ) → from ≤ i → i < to → CodeAt file (i + 1)) × (to ≤ 13) × Ready codes_file f3.now paths.order.now paths.ways.now }
    ensures { result ≡ is_in x (signs_from (λ c. sign_in (records_in (fields_of codes_file) f3.now) c) (from + 1) (to - from) (texts file row.entry.bytes.now row.entry.places.now)) }
{
    for i in from..to {
        if code_sign(file, row, i, f3, paths) == x {
            return true;
        }
    }
    false
}

// Whether the line's stop that starts at a place of Zaslinky has this sign: its codes are fields 5-7.
fn line_stop_has(x: u8, at: usize, f7: &[u8], f3: &[u8], paths: Paths) -> bool
    requires { (x ≡ 0 → ⊥) × PlaceIn 7 f7.now at × (at < length f7.now) × Ready 7 f7.now paths.order.now paths.ways.now × Ready codes_file f3.now paths.order.now paths.ways.now }
    ensures { result ≡ is_in x (signs_from (λ c. sign_in (records_in (fields_of codes_file) f3.now) c) 5 3 (record_at 7 f7.now at)) }
{
    let mut places: [usize; 14] = [0; 14];
    cut(f7, at, 7, &mut places);
    let row = CutRecord {
        bytes: f7,
        places: &places,
    };
    has_code(x, 7, row, 4, 7, f3, paths)
}

// Where the line's stop of a trip's stop stands, whose record was cut: it has its line and its tariff number.
fn line_stop_of(row: CutRecord, f7: &[u8], paths: Paths) -> Option<usize>
    requires { Kinded trip_stops_file row.bytes.now row.places.now × Ready 7 f7.now paths.order.now paths.ways.now }
    ensures { StopSought f7.now (texts trip_stops_file row.entry.bytes.now row.entry.places.now) result }
{
    let line = value_of(part(row, 0));
    let tariff = value_of(part(row, 2));
    by_two(7, f7, paths, line, tariff)
}

// Whether the line's stop of a trip's stop, which was cut, has this sign.
fn theirs_has(x: u8, row: CutRecord, f7: &[u8], f3: &[u8], paths: Paths) -> bool
    requires { (x ≡ 0 → ⊥) × Kinded trip_stops_file row.bytes.now row.places.now × Ready 7 f7.now paths.order.now paths.ways.now × Ready codes_file f3.now paths.order.now paths.ways.now }
    ensures { result ≡ is_in x (signs_from (λ c. sign_in (records_in (fields_of codes_file) f3.now) c) 5 3 (line_stop_at (records_in (fields_of codes_file) f3.now) (records_in (fields_of 7) f7.now) (texts trip_stops_file row.entry.bytes.now row.entry.places.now))) }
{
    match line_stop_of(row, f7, paths) {
        Some(at) => line_stop_has(x, at, f7, f3, paths),
        None => false,
    }
}

// Whether a trip's stop, whose record was cut, has no code of its own.
fn is_bare(row: CutRecord) -> bool
    requires { Kinded trip_stops_file row.bytes.now row.places.now }
    ensures { result ≡ both (is_empty (field 6 (texts trip_stops_file row.entry.bytes.now row.entry.places.now))) (is_empty (field 7 (texts trip_stops_file row.entry.bytes.now row.entry.places.now))) }
{
    part(row, 5).is_empty() && part(row, 6).is_empty()
}

// inner: whether a trip's stop, whose record was cut, has this sign
pub fn stop_has(x: u8, row: CutRecord, f7: &[u8], f3: &[u8], paths: Paths) -> bool
    requires { (x ≡ 0 → ⊥) × Kinded trip_stops_file row.bytes.now row.places.now × Ready 7 f7.now paths.order.now paths.ways.now × Ready codes_file f3.now paths.order.now paths.ways.now }
    ensures { result ≡ is_in x (plain_signs (records_in (fields_of codes_file) f3.now) (records_in (fields_of 7) f7.now) (texts trip_stops_file row.entry.bytes.now row.entry.places.now)) }
{
    if is_bare(row) {
        return theirs_has(x, row, f7, f3, paths);
    }
    has_code(x, 8, row, 5, 7, f3, paths) || x == b'$' && theirs_has(x, row, f7, f3, paths)
}

// No mark yet.
fn no_marks() -> Marks
    ensures { MarksOf [] result }
{
    Marks {
        dollar: false,
        opening: false,
        closing: false,
        section: false,
    }
}

// The marks of the codes in texts `from` to `to` - 1 of a record that was cut.
fn code_marks(file: u64, row: CutRecord, from: usize, to: usize, f3: &[u8], paths: Paths) -> Marks
    requires { Kinded file row.bytes.now row.places.now × ((i : ℕ) → from ≤ i → i < to → CodeAt file (i + 1)) × (to ≤ 13) × Ready codes_file f3.now paths.order.now paths.ways.now }
    ensures { MarksOf (signs_from (λ c. sign_in (records_in (fields_of codes_file) f3.now) c) (from + 1) (to - from) (texts file row.entry.bytes.now row.entry.places.now)) result }
{
    let mut m = no_marks();
    for i in from..to {
        m = marked(m, code_sign(file, row, i, f3, paths));
    }
    m
}

// The marks of the line's stop that starts at a place of Zaslinky: its codes are fields 5-7.
fn line_stop_marks(at: usize, f7: &[u8], f3: &[u8], paths: Paths) -> Marks
    requires { PlaceIn 7 f7.now at × (at < length f7.now) × Ready 7 f7.now paths.order.now paths.ways.now × Ready codes_file f3.now paths.order.now paths.ways.now }
    ensures { MarksOf (signs_from (λ c. sign_in (records_in (fields_of codes_file) f3.now) c) 5 3 (record_at 7 f7.now at)) result }
{
    let mut places: [usize; 14] = [0; 14];
    cut(f7, at, 7, &mut places);
    let row = CutRecord {
        bytes: f7,
        places: &places,
    };
    code_marks(7, row, 4, 7, f3, paths)
}

// Those of the line's stop of a trip's stop, which was cut.
fn their_marks(row: CutRecord, f7: &[u8], f3: &[u8], paths: Paths) -> Marks
    requires { Kinded trip_stops_file row.bytes.now row.places.now × Ready 7 f7.now paths.order.now paths.ways.now × Ready codes_file f3.now paths.order.now paths.ways.now }
    ensures { MarksOf (signs_from (λ c. sign_in (records_in (fields_of codes_file) f3.now) c) 5 3 (line_stop_at (records_in (fields_of codes_file) f3.now) (records_in (fields_of 7) f7.now) (texts trip_stops_file row.entry.bytes.now row.entry.places.now))) result }
{
    match line_stop_of(row, f7, paths) {
        Some(at) => line_stop_marks(at, f7, f3, paths),
        None => no_marks(),
    }
}

// inner: the marks of a trip's stop, whose record was cut; its line's stop is sought once for all of them
pub fn stop_marks(row: CutRecord, f7: &[u8], f3: &[u8], paths: Paths) -> Marks
    requires { Kinded trip_stops_file row.bytes.now row.places.now × Ready 7 f7.now paths.order.now paths.ways.now × Ready codes_file f3.now paths.order.now paths.ways.now }
    ensures { MarksOf (plain_signs (records_in (fields_of codes_file) f3.now) (records_in (fields_of 7) f7.now) (texts trip_stops_file row.entry.bytes.now row.entry.places.now)) result }
{
    let theirs = their_marks(row, f7, f3, paths);
    if is_bare(row) {
        return theirs;
    }
    let own = code_marks(8, row, 5, 7, f3, paths);
    with_dollar(own, theirs)
}

// What is wrong with a field of a record that was cut: its link, and then its sign. Fields count from 1, and texts from 0.
#![tactic(auto)]

ghost use Rattle.std.specs.Prelude.{◌≡◌, true, ◌<◌};
ghost use Rattle.laws.specs.Tests.{pick};
ghost use Rattle.field.specs.Values.{given, value};
ghost use Rattle.field.specs.Names.{field};
ghost use Rattle.rules.specs.Texts.{texts};
ghost use Rattle.keys.specs.Keys.{none};
ghost use Rattle.link.specs.Links.{link_of};
ghost use Rattle.link.specs.Numeric.{CodeAt};
ghost use Rattle.link.specs.Signs.{sign_of, code_fits};
ghost use Rattle.link.specs.Stage.{amiss};
ghost use Rattle.lookup.specs.Ways.{Lasts};
ghost use Rattle.thirteen.specs.Lent.{batch_of};
ghost use Rattle.amiss.specs.Sound.{Known, Record};

use amiss::{one_amiss, seat_amiss, sign_at, stop_amiss, two_amiss};
use field::value_of;
use link::Link;
use lookup::{Paths, look_one};
use targets::{is_permitted, link_of};
use thirteen::Files;
use walk::{CutRecord, part};

// The sign of a code number, that of the first Pevnykod record that has it; 0 if none has.
fn sign_of(c: u64, files: &Files, paths: Paths, last: &mut [usize]) -> u8
    requires { Known (batch_of files.now) 3 paths.order.now paths.ways.now last.old × (c < none) }
    ensures { (result ≡ sign_of (batch_of files.now) c) × Lasts (batch_of files.now) last.new }
{
    match look_one(3, c, files, paths, last) {
        Some(at) => sign_at(files.codes, at),
        None => 0,
    }
}

// Whether a code's sign is permitted here; Zasspoje's second code has the sign of its first, if both are given.
fn sign_amiss(
    sign: u8,
    file: u64,
    row: CutRecord,
    f: u64,
    files: &Files,
    paths: Paths,
    last: &mut [usize],
) -> u64
    requires { Record (batch_of files.now) file row.bytes.now row.places.now paths.order.now paths.ways.now last.old × CodeAt file f × (given (field f (texts file row.bytes.now row.places.now)) ≡ true) × (sign ≡ sign_of (batch_of files.now) (value (field f (texts file row.bytes.now row.places.now)))) }
    ensures { (result ≡ pick (code_fits (batch_of files.now) file f (texts file row.entry.bytes.now row.entry.places.now)) 0 9) × Lasts (batch_of files.now) last.new }
{
    if !is_permitted(file, sign) {
        return 9;
    }
    if file != 8 || f != 7 {
        return 0;
    }
    let first = part(row, 5);
    if first.is_empty() || sign_of(value_of(first), files, paths, last) == sign {
        return 0;
    }
    9
}

// A code: a link, unless it is empty, and a sign.
fn code_amiss(
    file: u64,
    row: CutRecord,
    f: u64,
    files: &Files,
    paths: Paths,
    last: &mut [usize],
) -> u64
    requires { Record (batch_of files.now) file row.bytes.now row.places.now paths.order.now paths.ways.now last.old × CodeAt file f × (link_of file f ≡ Link.Code) }
    ensures { (result ≡ amiss (batch_of files.now) file (texts file row.entry.bytes.now row.entry.places.now) f) × Lasts (batch_of files.now) last.new }
{
    let text = part(row, (f - 1) as usize);
    if text.is_empty() {
        return 0;
    }
    match look_one(3, value_of(text), files, paths, last) {
        Some(at) => sign_amiss(sign_at(files.codes, at), file, row, f, files, paths, last),
        None => 8,
    }
}

// inner: what is wrong with field f: 8, 9 or 0
pub fn amiss_at(
    file: u64,
    row: CutRecord,
    f: u64,
    files: &Files,
    paths: Paths,
    last: &mut [usize],
) -> u64
    requires { Record (batch_of files.now) file row.bytes.now row.places.now paths.order.now paths.ways.now last.old }
    ensures { (result ≡ amiss (batch_of files.now) file (texts file row.entry.bytes.now row.entry.places.now) f) × Lasts (batch_of files.now) last.new }
{
    match link_of(file, f) {
        Link::Free => 0,
        Link::Line => one_amiss(5, file, row, f, files, paths, last),
        Link::Stop => stop_amiss(file, row, f, files, paths, last),
        Link::Carrier => one_amiss(4, file, row, f, files, paths, last),
        Link::Trip => two_amiss(6, file, row, f, files, paths, last),
        Link::TripOrZero => seat_amiss(file, row, f, files, paths, last),
        Link::LineStop => two_amiss(7, file, row, f, files, paths, last),
        Link::Code => code_amiss(file, row, f, files, paths, last),
    }
}

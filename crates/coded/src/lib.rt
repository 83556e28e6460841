// The signs of a record's codes, looked up in Pevnykod.
#![tactic(auto)]

ghost use Rattle.std.specs.Prelude.{◌≡◌, ◌+◌, ◌<◌};
ghost use Rattle.laws.specs.Tests.{pick};
ghost use Rattle.file.specs.Files.{fields_of};
ghost use Rattle.file.specs.Records.{records_in};
ghost use Rattle.field.specs.Names.{field};
ghost use Rattle.field.specs.Values.{is_empty, value};
ghost use Rattle.keys.specs.Keys.{none};
ghost use Rattle.link.specs.Numeric.{CodeAt};
ghost use Rattle.link.specs.Signs.{sign_in, codes_file};
ghost use Rattle.rules.specs.Texts.{texts, Kinded};
ghost use Rattle.coded.specs.Ready.{Ready};

use amiss::sign_at;
use byway::by_one;
use field::value_of;
use lookup::Paths;
use walk::{CutRecord, part};

// The sign of a code number; 0 if no record has it.
fn sign_in(c: u64, f3: &[u8], paths: Paths) -> u8
    requires { (c < none) × Ready codes_file f3.now paths.order.now paths.ways.now }
    ensures { result ≡ sign_in (records_in (fields_of codes_file) f3.now) c }
{
    match by_one(3, f3, paths, c) {
        Some(at) => sign_at(f3, at),
        None => 0,
    }
}

// inner: the sign of the code in text i of a record that was cut; 0, which is no sign, if it is empty
pub fn code_sign(file: u64, row: CutRecord, i: usize, f3: &[u8], paths: Paths) -> u8
    requires { Kinded file row.bytes.now row.places.now × CodeAt file (i + 1) × Ready codes_file f3.now paths.order.now paths.ways.now }
    ensures { result ≡ pick (is_empty (field (i + 1) (texts file row.entry.bytes.now row.entry.places.now))) 0 (sign_in (records_in (fields_of codes_file) f3.now) (value (field (i + 1) (texts file row.entry.bytes.now row.entry.places.now)))) }
{
    let text = part(row, i);
    if text.is_empty() {
        return 0;
    }
    sign_in(value_of(text), f3, paths)
}

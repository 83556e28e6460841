// The signs of a trip's codes, which its record of Spoje has and Pevnykod tells: whether one is a day sign, and whether they allow a day.
#![tactic(auto)]

ghost use Rattle.std.specs.Prelude.{◌≡◌};
ghost use Rattle.file.specs.Files.{fields_of};
ghost use Rattle.file.specs.Records.{records_in};
ghost use Rattle.link.specs.Signs.{sign_in, codes_file};
ghost use Rattle.rules.specs.Texts.{texts, Kinded};
ghost use Rattle.coded.specs.Ready.{Ready};
ghost use Rattle.trip.specs.Days.{has_day_sign, signs_allow};
ghost use Rattle.trip.specs.Stage.{trips_file};
ghost use Rattle.trip.specs.View.{signs_from};

use coded::code_sign;
use lookup::Paths;
use walk::CutRecord;

// inner: whether one of a trip's codes is a day sign
pub fn has_day_sign(row: CutRecord, f3: &[u8], paths: Paths) -> bool
    requires { Kinded trips_file row.bytes.now row.places.now × Ready codes_file f3.now paths.order.now paths.ways.now }
    ensures { result ≡ has_day_sign (signs_from (λ c. sign_in (records_in (fields_of codes_file) f3.now) c) 3 10 (texts trips_file row.entry.bytes.now row.entry.places.now)) }
{
    for i in 2..12 {
        if signs::is_day_sign(code_sign(6, row, i, f3, paths)) {
            return true;
        }
    }
    false
}

// inner: whether a trip has no day sign, or one that fits day d
pub fn signs_allow(row: CutRecord, f3: &[u8], paths: Paths, d: u64, holidays: &[u64]) -> bool
    requires { Kinded trips_file row.bytes.now row.places.now × Ready codes_file f3.now paths.order.now paths.ways.now }
    ensures { result ≡ signs_allow (signs_from (λ c. sign_in (records_in (fields_of codes_file) f3.now) c) 3 10 (texts trips_file row.entry.bytes.now row.entry.places.now)) d holidays.now }
{
    for i in 2..12 {
        let sign = code_sign(6, row, i, f3, paths);
        if signs::sign_fits(sign, d, holidays) {
            return true;
        }
    }
    !has_day_sign(row, f3, paths)
}

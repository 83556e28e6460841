// The stops of a name: Zastavky record by record, how many have it, and the number of the first.
#![tactic(auto)]

ghost use Rattle.std.specs.Prelude.{◌≡◌};
ghost use Rattle.file.specs.Files.{fields_of};
ghost use Rattle.file.specs.Records.{records_in};
ghost use Rattle.field.specs.Names.{stops_file};
ghost use Rattle.coded.specs.Ready.{Ready};
ghost use Rattle.named.specs.Names.{numbered_named};
ghost use Rattle.byname.specs.Counting.{settled_by, count_on};

use field::value_of;
use lookup::Paths;
use named::{Named, first_of, is_named};
use walk::{CutRecord, cut};

// What so many stops of the name come to, the first of them with this number.
fn settled_by(found: u64, first: u64) -> Named
    ensures { numbered_named result ≡ settled_by found first }
{
    match found {
        0 => Named::Nobody,
        1 => Named::Is(first),
        _ => Named::Several(found),
    }
}

// inner: the stop of this name in Zastavky
pub fn named_in(f2: &[u8], paths: Paths, town: &[u8], part: &[u8], place: &[u8]) -> Named
    requires { Ready stops_file f2.now paths.order.now paths.ways.now }
    ensures { numbered_named result ≡ count_on town.now part.now place.now 0 0 (records_in (fields_of stops_file) f2.now) }
{
    let mut places: [usize; 14] = [0; 14];
    let mut found: u64 = 0;
    let mut first: u64 = 0;
    let mut at = 0;
    while at < f2.len() {
        let next = cut(f2, at, 12, &mut places);
        let row = CutRecord {
            bytes: f2,
            places: &places,
        };
        if is_named(row, town, part, place) {
            first = first_of(found, first, value_of(walk::part(row, 0)));
            found += 1;
        }
        at = next;
    }
    settled_by(found, first)
}

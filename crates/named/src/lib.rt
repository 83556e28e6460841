// A stop's name: three name fields that equal three byte strings, byte for byte; and what an answer about one is.
#![tactic(auto)]

ghost use Rattle.std.specs.Prelude.{◌≡◌, eqb};
ghost use Rattle.laws.specs.Tests.{pick};
ghost use Rattle.field.specs.Names.{stops_file};
ghost use Rattle.rules.specs.Texts.{texts, Kinded};
ghost use Rattle.named.specs.Names.{is_named};

use fault::Fault;
use walk::CutRecord;

// The answer.
#[derive(Clone, Copy)]
pub enum Named {
    // The batch's own refusal.
    Refused(Fault),
    // 23: no stop has this name.
    Nobody,
    // 24: several have it, and how many.
    Several(u64),
    // The number of the one that has.
    Is(u64),
}

// inner: the stop whose record was cut has this name
pub fn is_named(row: CutRecord, town: &[u8], part: &[u8], place: &[u8]) -> bool
    requires { Kinded stops_file row.bytes.now row.places.now }
    ensures { result ≡ is_named town.now part.now place.now (texts stops_file row.entry.bytes.now row.entry.places.now) }
{
    walk::part(row, 1) == town && walk::part(row, 2) == part && walk::part(row, 3) == place
}

// inner: the number of the first stop of the name, where this one has it
pub fn first_of(found: u64, first: u64, number: u64) -> u64
    ensures { result ≡ pick (eqb found 0) number first }
{
    if found == 0 { number } else { first }
}

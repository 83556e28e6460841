// A stop by its name: the number of the one stop whose three name fields equal three byte strings, byte for byte.
#![tactic(auto)]

ghost use Rattle.thirteen.specs.Lent.{batch_of};
ghost use Rattle.naming.specs.Names.{NameIs};

use batch::check_with;
use byname::named_in;
use fault::is_none;
use lookup::Paths;
use named::Named;
use thirteen::Files;

// The stop of this name. `order` is a hint and may hold anything: no answer depends on it.
pub fn stop_named(files: &Files, order: &[u32], town: &[u8], part: &[u8], place: &[u8]) -> Named
    ensures { NameIs (batch_of files.now) town.now part.now place.now result }
{
    let mut ways: [usize; 33] = [0; 33];
    let fault = check_with(files, order, &mut ways);
    if !is_none(fault) {
        return Named::Refused(fault);
    }
    named_in(files.stops, Paths { order, ways: &ways }, town, part, place)
}

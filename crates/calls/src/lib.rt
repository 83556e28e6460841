// A trip's nth stop in travel order: its tariff number, its stop, its times, its signs. The call takes any bytes and any numbers, and checks the batch
// first.
#![tactic(auto)]

ghost use Rattle.thirteen.specs.Lent.{batch_of};
ghost use Rattle.calls.specs.Numbers.{StopIs};

use batch::check_with;
use fault::is_none;
use lookup::Paths;
use outcome::Stop;
use stopping::answer_stop;
use thirteen::Files;

// A trip's nth stop in travel order, from 1 on. `order` is a hint and may hold anything: no answer depends on it.
pub fn trip_stop(files: &Files, order: &[u32], line: u64, trip: u64, n: u64) -> Stop
    ensures { StopIs (batch_of files.now) line trip n result }
{
    let mut ways: [usize; 33] = [0; 33];
    let fault = check_with(files, order, &mut ways);
    if !is_none(fault) {
        return Stop::Refused(fault);
    }
    answer_stop(
        n,
        line,
        trip,
        files.codes,
        files.trips,
        files.line_stops,
        files.trip_stops,
        Paths { order, ways: &ways },
    )
}

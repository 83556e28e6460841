// Questions about a batch's trips for C. Bytes and lists are lent for the call alone; nothing is written.
ghost use Rattle.thirteen.specs.Batch.{thirteen};
ghost use Rattle.gives.specs.TripGives.{RunsGives, TripStopGives};

use crate::lent::files_of;
use calls::trip_stop;
use counter::runs;
use tripresults::{RunsResult, TripStopResult, runs_handed, stop_handed};

// Whether a trip runs on a day.
#[unsafe(no_mangle)]
pub extern "C" fn slovdrim_runs<'a>(
    f1: &'a [u8],
    f2: &'a [u8],
    f3: &'a [u8],
    f4: &'a [u8],
    f5: &'a [u8],
    f6: &'a [u8],
    f7: &'a [u8],
    f8: &'a [u8],
    f9: &'a [u8],
    f10: &'a [u8],
    f11: &'a [u8],
    f12: &'a [u8],
    f13: &'a [u8],
    line: u64,
    trip: u64,
    day: u64,
    holidays: &[u64],
) -> RunsResult
    ensures { RunsGives (thirteen f1.now f2.now f3.now f4.now f5.now f6.now f7.now f8.now f9.now f10.now f11.now f12.now f13.now) line trip day holidays.now result }
{
    let files = files_of(f1, f2, f3, f4, f5, f6, f7, f8, f9, f10, f11, f12, f13);
    runs_handed(runs(&files, &[], line, trip, day, holidays))
}

// A trip's nth stop in travel order.
#[unsafe(no_mangle)]
pub extern "C" fn slovdrim_trip_stop<'a>(
    f1: &'a [u8],
    f2: &'a [u8],
    f3: &'a [u8],
    f4: &'a [u8],
    f5: &'a [u8],
    f6: &'a [u8],
    f7: &'a [u8],
    f8: &'a [u8],
    f9: &'a [u8],
    f10: &'a [u8],
    f11: &'a [u8],
    f12: &'a [u8],
    f13: &'a [u8],
    line: u64,
    trip: u64,
    nth: u64,
) -> TripStopResult
    ensures { TripStopGives (thirteen f1.now f2.now f3.now f4.now f5.now f6.now f7.now f8.now f9.now f10.now f11.now f12.now f13.now) line trip nth result }
{
    let files = files_of(f1, f2, f3, f4, f5, f6, f7, f8, f9, f10, f11, f12, f13);
    stop_handed(trip_stop(&files, &[], line, trip, nth))
}

// Whether a trip of a batch runs on a day. The call takes any bytes and any numbers, and checks the batch first.
#![tactic(auto)]

ghost use Rattle.std.specs.Prelude.{◌≡◌, ◌≤◌};
ghost use Rattle.file.specs.Files.{fields_of};
ghost use Rattle.file.specs.Records.{records_in};
ghost use Rattle.field.specs.Names.{lines_file, time_codes_file};
ghost use Rattle.link.specs.Signs.{codes_file};
ghost use Rattle.thirteen.specs.Lent.{batch_of};
ghost use Rattle.coded.specs.Ready.{Ready};
ghost use Rattle.trip.specs.Stage.{trips_file};
ghost use Rattle.outcome.specs.Answers.{numbered_runs};
ghost use Rattle.counter.specs.Numbers.{RunsIs};
ghost use Rattle.counter.specs.Plain.{LineMet, plain_answer};

use batch::check_with;
use byway::by_two;
use fault::is_none;
use lookup::Paths;
use outcome::Running;
use thirteen::Files;
use tripruns::trip_runs;

// Whether the trip, if there is one, runs on a day of the calendar.
fn answer_runs(
    line: u64,
    trip: u64,
    f3: &[u8],
    f5: &[u8],
    f6: &[u8],
    f10: &[u8],
    paths: Paths,
    d: u64,
    holidays: &[u64],
) -> Running
    requires { LineMet (records_in (fields_of lines_file) f5.now) (records_in (fields_of trips_file) f6.now) line trip × Ready codes_file f3.now paths.order.now paths.ways.now × Ready lines_file f5.now paths.order.now paths.ways.now × Ready trips_file f6.now paths.order.now paths.ways.now × Ready time_codes_file f10.now paths.order.now paths.ways.now × (d ≤ 73048) }
    ensures { numbered_runs result ≡ plain_answer (records_in (fields_of codes_file) f3.now) (records_in (fields_of lines_file) f5.now) (records_in (fields_of trips_file) f6.now) (records_in (fields_of time_codes_file) f10.now) line trip d holidays.now }
{
    if line >= 1000000000 || trip >= 1000000000 {
        return Running::NoTrip;
    }
    match by_two(6, f6, paths, line, trip) {
        Some(at) => {
            if trip_runs(at, line, trip, f3, f5, f6, f10, paths, d, holidays) {
                Running::Yes
            } else {
                Running::Not
            }
        }
        None => Running::NoTrip,
    }
}

// Whether a trip runs on a day, with a list of holidays. `order` is a hint and may hold anything: no answer depends on it.
pub fn runs(files: &Files, order: &[u32], line: u64, trip: u64, d: u64, holidays: &[u64]) -> Running
    ensures { RunsIs (batch_of files.now) line trip d holidays.now result }
{
    let mut ways: [usize; 33] = [0; 33];
    let fault = check_with(files, order, &mut ways);
    if !is_none(fault) {
        return Running::Refused(fault);
    }
    if d > 73048 {
        return Running::NoDay;
    }
    answer_runs(
        line,
        trip,
        files.codes,
        files.lines,
        files.trips,
        files.time_codes,
        Paths { order, ways: &ways },
        d,
        holidays,
    )
}

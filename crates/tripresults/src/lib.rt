// What C is handed of the questions about a batch's trips: number and place, and the answer's values, 0 where there is none.
#![tactic(auto)]

ghost use Rattle.std.specs.Prelude.{◌≡◌};
ghost use Rattle.outcome.specs.Answers.{numbered_runs, numbered_stop};
ghost use Rattle.tripresults.specs.Results.{runs_result, plain_runs_result, stop_result, plain_stop_result};

use checkresults::handed;
use outcome::{Running, Stop};

#[repr(C)]
#[derive(Clone, Copy)]
pub struct RunsResult {
    pub number: u64,
    pub file: u64,
    pub record: u64,
    pub field: u64,
    pub offset: u64,
    pub runs: u64,
}

#[repr(C)]
#[derive(Clone, Copy)]
pub struct TripStopResult {
    pub number: u64,
    pub file: u64,
    pub record: u64,
    pub field: u64,
    pub offset: u64,
    pub tariff: u64,
    pub stop: u64,
    pub arrives: u64,
    pub arrival: u64,
    pub departs: u64,
    pub departure: u64,
    pub signs: u64,
    pub last: u64,
    pub stops: u64,
}

// A refusal with no place, or an answer.
fn plain_runs(number: u64, runs: u64) -> RunsResult
    ensures { result ≡ plain_runs_result number runs }
{
    RunsResult {
        number,
        file: 0,
        record: 0,
        field: 0,
        offset: 0,
        runs,
    }
}

// inner: document 01's number, place and value of an answer.
#[tactic(auto, using(crate::proofs::RefusedLaws::refused_runs), unfolding(outcome::specs::Answers::numbered_runs, crate::specs::Results::runs_result))]
pub fn runs_handed(answer: Running) -> RunsResult
    ensures { result ≡ runs_result (numbered_runs answer) }
{
    match answer {
        Running::Refused(fault) => {
            let p = handed(fault);
            RunsResult {
                number: p.number,
                file: p.file,
                record: p.record,
                field: p.field,
                offset: p.offset,
                runs: 0,
            }
        }
        Running::NoDay => plain_runs(12, 0),
        Running::NoTrip => plain_runs(13, 0),
        Running::Yes => plain_runs(0, 1),
        Running::Not => plain_runs(0, 0),
    }
}

// A refusal with its place.
fn no_stop(number: u64, file: u64, row: u64, column: u64, offset: u64) -> TripStopResult
    ensures { result ≡ plain_stop_result number file row column offset }
{
    TripStopResult {
        number,
        file,
        record: row,
        field: column,
        offset,
        tariff: 0,
        stop: 0,
        arrives: 0,
        arrival: 0,
        departs: 0,
        departure: 0,
        signs: 0,
        last: 0,
        stops: 0,
    }
}

// inner: document 01's number, place and values of an answer.
#[tactic(auto, using(crate::proofs::RefusedLaws::refused_stop), unfolding(outcome::specs::Answers::numbered_stop, outcome::specs::Answers::halt_numbers, crate::specs::Results::stop_result))]
pub fn stop_handed(answer: Stop) -> TripStopResult
    ensures { result ≡ stop_result (numbered_stop answer) }
{
    match answer {
        Stop::Refused(fault) => {
            let p = handed(fault);
            no_stop(p.number, p.file, p.record, p.field, p.offset)
        }
        Stop::NoTrip => no_stop(13, 0, 0, 0, 0),
        Stop::Is(halt) => TripStopResult {
            number: 0,
            file: 0,
            record: 0,
            field: 0,
            offset: 0,
            tariff: halt.tariff,
            stop: halt.stop,
            arrives: halt.arrives,
            arrival: halt.arrival,
            departs: halt.departs,
            departure: halt.departure,
            signs: halt.signs,
            last: halt.last,
            stops: halt.stops,
        },
    }
}

// What C is handed of the checks: document 01's refusals 1 to 11, each with its place, and the counts of a batch that is accepted.
#![tactic(auto)]

ghost use Rattle.std.specs.Prelude.{◌≡◌};
ghost use Rattle.laws.specs.Numbered.{refused_in};
ghost use Rattle.file.specs.Answers.{numbered};
ghost use Rattle.fault.specs.Answers.{numbered_fault};
ghost use Rattle.outcome.specs.Answers.{numbered_verdict};
ghost use Rattle.checkresults.specs.Results.{fields_result, check_result};

use fault::Fault;
use file::Refusal;
use fileresults::place_of;
use outcome::Verdict;

// A number and its place, of one file's check and of any fault.
#[repr(C)]
#[derive(Clone, Copy)]
pub struct FieldsResult {
    pub number: u64,
    pub file: u64,
    pub record: u64,
    pub field: u64,
    pub offset: u64,
}

// The same of a whole batch, and how many records the files 2, 5, 6 and 8 have where it is accepted.
#[repr(C)]
#[derive(Clone, Copy)]
pub struct CheckResult {
    pub number: u64,
    pub file: u64,
    pub record: u64,
    pub field: u64,
    pub offset: u64,
    pub stops: u64,
    pub lines: u64,
    pub trips: u64,
    pub trip_stops: u64,
}

// inner: a refusal whose place is a record, or a field of it.
#[tactic(auto, unfolding(crate::specs::Results::fields_result))]
pub fn found_in(number: u64, file: u64, row: u64, column: u64) -> FieldsResult
    ensures { result ≡ fields_result (refused_in number file row column) }
{
    FieldsResult {
        number,
        file,
        record: row,
        field: column,
        offset: 0,
    }
}

// inner: a file's own refusal.
#[tactic(auto, using(crate::proofs::RefusedLaws::refused_fields))]
pub fn in_file(why: Refusal) -> FieldsResult
    ensures { result ≡ fields_result (numbered why) }
{
    let p = place_of(why);
    FieldsResult {
        number: p.number,
        file: p.file,
        record: 0,
        field: 0,
        offset: p.offset,
    }
}

// inner: document 01's number and place of a fault.
#[tactic(auto, unfolding(fault::specs::Answers::numbered_fault))]
pub fn handed(fault: Fault) -> FieldsResult
    ensures { result ≡ fields_result (numbered_fault fault) }
{
    match fault {
        Fault::None => found_in(0, 0, 0, 0),
        Fault::File(why) => in_file(why),
        Fault::Version(row, column) => found_in(4, 1, row, column),
        Fault::Unkind(file, row, column) => found_in(5, file, row, column),
        Fault::Broken(file, row) => found_in(6, file, row, 0),
        Fault::Used(file, row) => found_in(7, file, row, 0),
        Fault::Dangling(file, row, column) => found_in(8, file, row, column),
        Fault::Misplaced(file, row, column) => found_in(9, file, row, column),
        Fault::Days(row) => found_in(10, 6, row, 0),
        Fault::Stops(row) => found_in(11, 6, row, 0),
    }
}

// inner: document 01's number, place and counts of a verdict.
#[tactic(auto, using(crate::proofs::RefusedLaws::refused_check), unfolding(outcome::specs::Answers::numbered_verdict, crate::specs::Results::check_result))]
pub fn judged(v: Verdict) -> CheckResult
    ensures { result ≡ check_result (numbered_verdict v) }
{
    match v {
        Verdict::Accepted(counts) => CheckResult {
            number: 0,
            file: 0,
            record: 0,
            field: 0,
            offset: 0,
            stops: counts.stops,
            lines: counts.lines,
            trips: counts.trips,
            trip_stops: counts.trip_stops,
        },
        Verdict::Refused(fault) => {
            let p = handed(fault);
            CheckResult {
                number: p.number,
                file: p.file,
                record: p.record,
                field: p.field,
                offset: p.offset,
                stops: 0,
                lines: 0,
                trips: 0,
                trip_stops: 0,
            }
        }
    }
}

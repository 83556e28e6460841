// The line of a verdict: document 01, "The check program and the desk host". Which numbers it has, and in which order.
#![tactic(auto)]

ghost use Rattle.std.specs.Prelude.{◌≡◌, ◌≤◌, length};
ghost use Rattle.laws.specs.Splice.{splice};
ghost use Rattle.laws.specs.Numbered.{refused_in, refused_at};
ghost use Rattle.file.specs.Answers.{numbered};
ghost use Rattle.fault.specs.Answers.{numbered_fault};
ghost use Rattle.outcome.specs.Answers.{numbered_verdict};
ghost use Rattle.verdictline.specs.VerdictLine.{verdict_line};
ghost use Rattle.verdictline.specs.Places.{numbered_place, Judged};

use fault::Fault;
use file::Refusal;
use outcome::Verdict;
use phrase::{Place, lay_accepted, lay_refused};

// One whose place is a record, or a field of it.
fn place_in(number: u64, file: u64, row: u64, column: u64) -> Place
    ensures { numbered_place result ≡ refused_in number file row column }
{
    Place {
        number,
        file,
        row,
        column,
        offset: 0,
    }
}

// One whose place is an offset in a file.
fn place_at(number: u64, file: u64, offset: u64) -> Place
    ensures { numbered_place result ≡ refused_at number file offset }
{
    Place {
        number,
        file,
        row: 0,
        column: 0,
        offset,
    }
}

// A file's own refusal.
#[tactic(auto, unfolding(file::specs::Answers::numbered))]
fn file_place(why: Refusal) -> Place
    ensures { numbered_place result ≡ numbered why }
{
    match why {
        Refusal::TooLong(file) => place_in(1, file, 0, 0),
        Refusal::Unfit(file, at) => place_at(2, file, at),
        Refusal::CutShort(file, at) => place_at(3, file, at),
        Refusal::NoSuch => place_in(20, 0, 0, 0),
        Refusal::NotPermitted => place_in(21, 0, 0, 0),
        Refusal::NoRoom => place_in(22, 0, 0, 0),
    }
}

// Document 01's number and place of a fault.
#[tactic(auto, unfolding(fault::specs::Answers::numbered_fault))]
fn place_of(fault: Fault) -> Place
    ensures { numbered_place result ≡ numbered_fault fault }
{
    match fault {
        Fault::None => place_in(0, 0, 0, 0),
        Fault::File(why) => file_place(why),
        Fault::Version(row, column) => place_in(4, 1, row, column),
        Fault::Unkind(file, row, column) => place_in(5, file, row, column),
        Fault::Broken(file, row) => place_in(6, file, row, 0),
        Fault::Used(file, row) => place_in(7, file, row, 0),
        Fault::Dangling(file, row, column) => place_in(8, file, row, column),
        Fault::Misplaced(file, row, column) => place_in(9, file, row, column),
        Fault::Days(row) => place_in(10, 6, row, 0),
        Fault::Stops(row) => place_in(11, 6, row, 0),
    }
}

// inner: lays the line of a verdict at the front of d, and answers how long it is; the longest has 134 bytes
pub fn lay_verdict(v: Verdict, d: &mut [u8]) -> usize
    requires { (134 ≤ length d.old) × Judged (numbered_verdict v) }
    ensures { (d.new ≡ splice d.old 0 (verdict_line (numbered_verdict v))) × (result ≡ length (verdict_line (numbered_verdict v))) × (result ≤ 134) }
{
    match v {
        Verdict::Accepted(c) => lay_accepted(c.stops, c.lines, c.trips, c.trip_stops, d),
        Verdict::Refused(fault) => lay_refused(place_of(fault), d),
    }
}

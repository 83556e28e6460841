// The check of a batch in document 01's order: refusals 1 to 11, or accepted with the counts of files 2, 5, 6 and 8.
#![tactic(auto)]

ghost use Rattle.std.specs.Prelude.{◌≡◌, [], ◌≤◌, length, drop};
ghost use Rattle.laws.specs.Numbered.{answered};
ghost use Rattle.thirteen.specs.Lent.{batch_of};
ghost use Rattle.lookup.specs.Ways.{Ways};
ghost use Rattle.amiss.specs.Sound.{SoundFiles};
ghost use Rattle.fault.specs.Answers.{numbered_fault};
ghost use Rattle.filestages.specs.Order.{first_fault};
ghost use Rattle.batch.specs.Order.{stages, fault_of};
ghost use Rattle.batch.specs.Verdicts.{VerdictIs};

use alone::check_files;
use counts::counts_of;
use fault::{Fault, is_none};
use links::links_fault;
use lookup::Paths;
use outcome::Verdict;
use recordfaults::{linked_fault, timed_fault};
use routes::survey;
use smooth::all_pass;
use thirteen::Files;
use trips::trips_fault;

// 7 to 11.
fn check_records(files: &Files, paths: Paths) -> Fault
    requires { SoundFiles (batch_of files.now) × (33 ≤ length paths.ways.now) × Ways (batch_of files.now) paths.order.now paths.ways.now }
    ensures { numbered_fault result ≡ first_fault (drop 4 (stages (batch_of files.now))) }
{
    let fault = linked_fault(links_fault(files, paths));
    if !is_none(fault) {
        return fault;
    }
    timed_fault(trips_fault(
        files.codes,
        files.trips,
        files.trip_stops,
        files.time_codes,
        paths,
    ))
}

// The first fault of a batch stage by stage, and, where there is none, the ways to its records.
fn check_in_order(files: &Files, order: &[u32], ways: &mut [usize]) -> Fault
    requires { 33 ≤ length ways.old }
    ensures { (numbered_fault result ≡ fault_of (batch_of files.now)) × (fault_of (batch_of files.now) ≡ answered [] → Ways (batch_of files.now) order.now ways.new) }
{
    let fault = check_files(files);
    if !is_none(fault) {
        return fault;
    }
    survey(files, order, ways);
    check_records(files, Paths { order, ways })
}

// inner: the first fault of a batch, and, where there is none, the ways to its records. A batch whose keys rise and in which 1 to 9 find nothing is
// gone through once.
pub fn check_with(files: &Files, order: &[u32], ways: &mut [usize]) -> Fault
    requires { 33 ≤ length ways.old }
    ensures { (numbered_fault result ≡ fault_of (batch_of files.now)) × (fault_of (batch_of files.now) ≡ answered [] → Ways (batch_of files.now) order.now ways.new) }
{
    if all_pass(files, order, ways) {
        return timed_fault(trips_fault(
            files.codes,
            files.trips,
            files.trip_stops,
            files.time_codes,
            Paths { order, ways },
        ));
    }
    check_in_order(files, order, ways)
}

// The whole check. `order` is a hint and may hold anything: the promise doesn't mention it, and no answer depends on it.
pub fn check(files: &Files, order: &[u32]) -> Verdict
    ensures { VerdictIs (batch_of files.now) result }
{
    let mut ways: [usize; 33] = [0; 33];
    let fault = check_with(files, order, &mut ways);
    if !is_none(fault) {
        return Verdict::Refused(fault);
    }
    Verdict::Accepted(counts_of(files.stops, files.lines, files.trips, files.trip_stops))
}

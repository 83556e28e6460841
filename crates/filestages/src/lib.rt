// What each file of a batch is by itself, in document 01's order: 1 over all files, 2 and 3 over all files, 4, then 5 and 6.
#![tactic(auto)]

ghost use Rattle.std.specs.Prelude.{◌≡◌, take};
ghost use Rattle.thirteen.specs.Lent.{batch_of};
ghost use Rattle.fault.specs.Answers.{numbered_fault};
ghost use Rattle.filestages.specs.Order.{first_fault, file_stages};

use fault::{Fault, is_none};
use filefaults::version_fault;
use overfiles::{first_long, first_unread, first_unsound};
use thirteen::Files;

// 1, 2 and 3.
fn check_bytes(files: &Files) -> Fault
    ensures { numbered_fault result ≡ first_fault (take 2 (file_stages (batch_of files.now))) }
{
    let fault = first_long(files);
    if is_none(fault) {
        first_unread(files)
    } else {
        fault
    }
}

// inner: 1 to 6, stage by stage
pub fn check_stages(files: &Files) -> Fault
    ensures { numbered_fault result ≡ first_fault (file_stages (batch_of files.now)) }
{
    let first = check_bytes(files);
    if !is_none(first) {
        return first;
    }
    let second = version_fault(files.version);
    if is_none(second) {
        first_unsound(files)
    } else {
        second
    }
}

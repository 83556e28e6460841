// The first fault over the files of a batch, in each of three passes: 1; 2 and 3; 5 and 6.
#![tactic(auto)]

ghost use Rattle.std.specs.Prelude.{◌≡◌};
ghost use Rattle.field.specs.Stage.{field_fault};
ghost use Rattle.thirteen.specs.Batch.{records_of, over_files};
ghost use Rattle.thirteen.specs.Lent.{batch_of};
ghost use Rattle.fault.specs.Answers.{numbered_fault};
ghost use Rattle.overfiles.specs.Legal.{LegalFiles};
ghost use Rattle.overfiles.specs.OneFile.{length_fault, bytes_fault};

use fault::{Fault, is_none};
use fields::first_fault;
use file::{Refusal, fields_of};
use filefaults::{LONGEST, checked_fault, outcome_fault};
use scanner::read;
use thirteen::{Files, file_of};

// inner: the first file that is too long, refusal 1
pub fn first_long(files: &Files) -> Fault
    ensures { numbered_fault result ≡ over_files (length_fault (batch_of files.now)) 1 13 }
{
    for file in 1..14 {
        let s = file_of(file, files);
        if s.len() > LONGEST {
            return Fault::File(Refusal::TooLong(file));
        }
    }
    Fault::None
}

// inner: the first file that isn't legal, 2 and 3
pub fn first_unread(files: &Files) -> Fault
    ensures { numbered_fault result ≡ over_files (bytes_fault (batch_of files.now)) 1 13 }
{
    for file in 1..14 {
        let s = file_of(file, files);
        let fault = outcome_fault(file, read(s, fields_of(file)));
        if !is_none(fault) {
            return fault;
        }
    }
    Fault::None
}

// inner: the first fault inside one of the files 2-13, 5 and 6
pub fn first_unsound(files: &Files) -> Fault
    requires { LegalFiles (batch_of files.now) }
    ensures { numbered_fault result ≡ over_files (λ file. field_fault file (records_of (batch_of files.now) file)) 2 12 }
{
    for file in 2..14 {
        let s = file_of(file, files);
        let fault = checked_fault(first_fault(file, s, fields_of(file)));
        if !is_none(fault) {
            return fault;
        }
    }
    Fault::None
}

// What the files of a batch are by themselves: whether they have none of document 01's 1 to 6, each file read once; where they have one, the first.
#![tactic(auto)]

ghost use Rattle.std.specs.Prelude.{◌≡◌, true};
ghost use Rattle.thirteen.specs.Lent.{batch_of};
ghost use Rattle.fault.specs.Answers.{numbered_fault};
ghost use Rattle.filestages.specs.Order.{first_fault, file_stages};
ghost use Rattle.alone.specs.Sound.{SweptFiles};

use fault::Fault;
use file::fields_of;
use filefaults::{LONGEST, is_right_version};
use filestages::check_stages;
use sweep::is_sound;
use thirteen::{Files, file_of};

// Whether the files 2-13 have none of 1 to 6, each read once, the last first: a fault in a late file is seen before the files ahead of it are read.
fn are_sound(files: &Files) -> bool
    ensures { result ≡ true → SweptFiles (batch_of files.now) }
{
    for file in (2..14).rev() {
        let s = file_of(file, files);
        if s.len() > LONGEST || !is_sound(file, s, fields_of(file)) {
            return false;
        }
    }
    true
}

// inner: 1 to 6. A file that has one may be read again, to name the first.
pub fn check_files(files: &Files) -> Fault
    ensures { numbered_fault result ≡ first_fault (file_stages (batch_of files.now)) }
{
    if is_right_version(files.version) && are_sound(files) {
        Fault::None
    } else {
        check_stages(files)
    }
}

// What C is handed of the check of one file, read by itself: the number of its first fault, and the place, in a struct of `checkresults`.
#![tactic(auto)]

ghost use Rattle.fieldsresults.specs.Results.{FieldsGives};

use checkresults::{FieldsResult, found_in, in_file};
use fields::Checked;

// inner: the first fault inside one file, read by itself.
#[tactic(auto, unfolding(fields::specs::Check::numbered_checked))]
pub fn fields(file: u64, bytes: &[u8]) -> FieldsResult
    ensures { FieldsGives file bytes.now result }
{
    match fields::check_fields(file, bytes) {
        Checked::Sound => found_in(0, 0, 0, 0),
        Checked::Refused(why) => in_file(why),
        Checked::Unkind(at, row, column) => found_in(5, at, row, column),
        Checked::Broken(at, row) => found_in(6, at, row, 0),
    }
}

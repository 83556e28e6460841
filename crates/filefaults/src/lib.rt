// What was found in one file, 1 to 6, as a fault of the batch; VerzeJDF and its version.
#![tactic(auto)]

ghost use Rattle.std.specs.Prelude.{◌≡◌, true};
ghost use Rattle.file.specs.Records.{records_in};
ghost use Rattle.fields.specs.Check.{numbered_checked};
ghost use Rattle.walk.specs.Walk.{LegalFrom};
ghost use Rattle.fault.specs.Answers.{numbered_fault};
ghost use Rattle.filefaults.specs.Faults.{is_version, outcome_fault, version_fault};
ghost use Rattle.filefaults.specs.Version.{RightVersion};

use fault::{Fault, is_none};
use fields::Checked;
use file::{Outcome, Refusal};
use scanner::read;
use walk::{CutRecord, cut, part};

// The greatest length of a file.
pub const LONGEST: usize = 16_777_215;

// inner: what the reading of a file came to, as a fault
#[tactic(auto, unfolding(fault::specs::Answers::numbered_fault, file::specs::Answers::numbered, crate::specs::Faults::outcome_fault))]
pub fn outcome_fault(file: u64, o: Outcome) -> Fault
    ensures { numbered_fault result ≡ outcome_fault file o }
{
    match o {
        Outcome::Whole(_) => Fault::None,
        Outcome::Unfit(at) => Fault::File(Refusal::Unfit(file, at as u64)),
        Outcome::CutShort(at) => Fault::File(Refusal::CutShort(file, at as u64)),
    }
}

// The text `1.8`.
fn is_version(t: &[u8]) -> bool
    ensures { result ≡ is_version t.now }
{
    t == b"1.8".as_slice()
}

// inner: 4: VerzeJDF, legal, is one record `1.8`
pub fn version_fault(s: &[u8]) -> Fault
    requires { LegalFrom 1 s.now 0 }
    ensures { numbered_fault result ≡ version_fault (records_in 1 s.now) }
{
    if s.is_empty() {
        return Fault::Version(0, 0);
    }
    let mut places: [usize; 14] = [0; 14];
    let next = cut(s, 0, 1, &mut places);
    let row = CutRecord {
        bytes: s,
        places: &places,
    };
    if next < s.len() {
        return Fault::Version(0, 0);
    }
    if is_version(part(row, 0)) {
        Fault::None
    } else {
        Fault::Version(1, 1)
    }
}

// inner: the first fault inside one file, as a fault of the batch
#[tactic(auto, unfolding(fault::specs::Answers::numbered_fault, fields::specs::Check::numbered_checked))]
pub fn checked_fault(c: Checked) -> Fault
    ensures { numbered_fault result ≡ numbered_checked c }
{
    match c {
        Checked::Sound => Fault::None,
        Checked::Refused(why) => Fault::File(why),
        Checked::Unkind(file, k, f) => Fault::Unkind(file, k, f),
        Checked::Broken(file, k) => Fault::Broken(file, k),
    }
}

// inner: whether VerzeJDF has none of 1 to 4
pub fn is_right_version(s: &[u8]) -> bool
    ensures { result ≡ true → RightVersion s.now }
{
    s.len() <= LONGEST && is_none(outcome_fault(1, read(s, 1))) && is_none(version_fault(s))
}

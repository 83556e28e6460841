// The first fault of a batch: document 01's refusals 1 to 11, each with its place.
#![tactic(auto)]

ghost use Rattle.std.specs.Prelude.{◌≡◌, eqb};
ghost use Rattle.fault.specs.Answers.{numbered_fault};

use file::Refusal;

// The first fault of a batch.
#[derive(Clone, Copy)]
pub enum Fault {
    // There is none.
    None,
    // A file's own refusal.
    File(Refusal),
    // Record and field: VerzeJDF isn't one record `1.8`.
    Version(u64, u64),
    // File, record and field: not of its kind.
    Unkind(u64, u64, u64),
    // File and record: a rule inside the record is broken.
    Broken(u64, u64),
    // File and record: its key is used by an earlier record.
    Used(u64, u64),
    // File, record and field: a link to nothing.
    Dangling(u64, u64, u64),
    // File, record and field: its sign is not permitted here.
    Misplaced(u64, u64, u64),
    // The record of a trip in Spoje: its days are wrong.
    Days(u64),
    // The same: its stops are wrong.
    Stops(u64),
}

// inner: whether there is none
pub fn is_none(f: Fault) -> bool
    ensures { result ≡ eqb (numbered_fault f).number 0 }
{
    matches!(f, Fault::None)
}

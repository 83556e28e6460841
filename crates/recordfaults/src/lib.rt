// What was found in the records of a batch, 7 to 11, as a fault of the batch.
#![tactic(auto)]

ghost use Rattle.std.specs.Prelude.{◌≡◌};
ghost use Rattle.link.specs.Stage.{numbered_linked};
ghost use Rattle.trips.specs.Answers.{numbered_timed};
ghost use Rattle.fault.specs.Answers.{numbered_fault};

use fault::Fault;
use link::Linked;
use trips::Timed;

// inner: 7, 8 and 9, as a fault of the batch
#[tactic(auto, unfolding(link::specs::Stage::numbered_linked, fault::specs::Answers::numbered_fault))]
pub fn linked_fault(l: Linked) -> Fault
    ensures { numbered_fault result ≡ numbered_linked l }
{
    match l {
        Linked::Sound => Fault::None,
        Linked::Used(file, k) => Fault::Used(file, k),
        Linked::Dangling(file, k, f) => Fault::Dangling(file, k, f),
        Linked::Misplaced(file, k, f) => Fault::Misplaced(file, k, f),
    }
}

// inner: 10 and 11, as a fault of the batch
#[tactic(auto, unfolding(trips::specs::Answers::numbered_timed, fault::specs::Answers::numbered_fault))]
pub fn timed_fault(t: Timed) -> Fault
    ensures { numbered_fault result ≡ numbered_timed t }
{
    match t {
        Timed::Sound => Fault::None,
        Timed::Days(k) => Fault::Days(k),
        Timed::Stops(k) => Fault::Stops(k),
    }
}

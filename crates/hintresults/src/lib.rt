// What C is handed of the hint's maker: number and place, and how many places were written, 0 with a refusal.
#![tactic(auto)]

ghost use Rattle.std.specs.Prelude.{◌≡◌};
ghost use Rattle.arrange.specs.Hint.{numbered_hint};
ghost use Rattle.hintresults.specs.Results.{hint_result};

use arrange::Arranged;
use checkresults::handed;

#[repr(C)]
#[derive(Clone, Copy)]
pub struct HintResult {
    pub number: u64,
    pub file: u64,
    pub record: u64,
    pub field: u64,
    pub offset: u64,
    pub written: u64,
}

// inner: document 01's number, place and value of an answer.
#[tactic(auto, using(crate::proofs::RefusedLaws::refused_hint), unfolding(arrange::specs::Hint::numbered_hint, crate::specs::Results::hint_result))]
pub fn hint_handed(answer: Arranged) -> HintResult
    ensures { result ≡ hint_result (numbered_hint answer) }
{
    match answer {
        Arranged::Refused(fault) => {
            let p = handed(fault);
            HintResult {
                number: p.number,
                file: p.file,
                record: p.record,
                field: p.field,
                offset: p.offset,
                written: 0,
            }
        }
        Arranged::Wrote(n) => HintResult {
            number: 0,
            file: 0,
            record: 0,
            field: 0,
            offset: 0,
            written: n,
        },
    }
}

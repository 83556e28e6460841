// The check of a batch for C: document 01's refusals 1 to 11 over thirteen files in their order, or how many stops, lines, trips and trip
// stops an accepted batch has. Bytes and the list are lent for the call alone; nothing is written.
ghost use Rattle.thirteen.specs.Batch.{thirteen};
ghost use Rattle.gives.specs.Gives.{CheckGives};

use crate::lent::files_of;
use batch::check;
use checkresults::{CheckResult, judged};

// The first fault of a batch, or its counts.
#[unsafe(no_mangle)]
pub extern "C" fn slovdrim_check<'a>(
    f1: &'a [u8],
    f2: &'a [u8],
    f3: &'a [u8],
    f4: &'a [u8],
    f5: &'a [u8],
    f6: &'a [u8],
    f7: &'a [u8],
    f8: &'a [u8],
    f9: &'a [u8],
    f10: &'a [u8],
    f11: &'a [u8],
    f12: &'a [u8],
    f13: &'a [u8],
) -> CheckResult
    ensures { CheckGives (thirteen f1.now f2.now f3.now f4.now f5.now f6.now f7.now f8.now f9.now f10.now f11.now f12.now f13.now) result }
{
    let files = files_of(f1, f2, f3, f4, f5, f6, f7, f8, f9, f10, f11, f12, f13);
    judged(check(&files, &[]))
}

// The same with a list that may hold anything: the answer doesn't depend on it.
#[unsafe(no_mangle)]
pub extern "C" fn slovdrim_check_hinted<'a>(
    f1: &'a [u8],
    f2: &'a [u8],
    f3: &'a [u8],
    f4: &'a [u8],
    f5: &'a [u8],
    f6: &'a [u8],
    f7: &'a [u8],
    f8: &'a [u8],
    f9: &'a [u8],
    f10: &'a [u8],
    f11: &'a [u8],
    f12: &'a [u8],
    f13: &'a [u8],
    order: &[u32],
) -> CheckResult
    ensures { CheckGives (thirteen f1.now f2.now f3.now f4.now f5.now f6.now f7.now f8.now f9.now f10.now f11.now f12.now f13.now) result }
{
    let files = files_of(f1, f2, f3, f4, f5, f6, f7, f8, f9, f10, f11, f12, f13);
    judged(check(&files, order))
}

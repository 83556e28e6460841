// The maker of the hint for C: it writes the lent list, and only where it answers.
ghost use Rattle.thirteen.specs.Batch.{thirteen};
ghost use Rattle.hintresults.specs.Results.{HintGives};

use crate::lent::files_of;
use arrange::arrange;
use hintresults::{HintResult, hint_handed};

// Where the records start, in order of their keys, for the files whose keys don't rise.
#[unsafe(no_mangle)]
pub extern "C" fn slovdrim_order<'a>(
    f1: &'a [u8],
    f2: &'a [u8],
    f3: &'a [u8],
    f4: &'a [u8],
    f5: &'a [u8],
    f6: &'a [u8],
    f7: &'a [u8],
    f8: &'a [u8],
    f9: &'a [u8],
    f10: &'a [u8],
    f11: &'a [u8],
    f12: &'a [u8],
    f13: &'a [u8],
    list: &mut [u32],
) -> HintResult
    ensures { HintGives (thirteen f1.now f2.now f3.now f4.now f5.now f6.now f7.now f8.now f9.now f10.now f11.now f12.now f13.now) list.old (result, list.new) }
{
    let files = files_of(f1, f2, f3, f4, f5, f6, f7, f8, f9, f10, f11, f12, f13);
    hint_handed(arrange(&files, list))
}

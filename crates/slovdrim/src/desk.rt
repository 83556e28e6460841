// The counter's questions for C. Bytes and lists are lent for the call alone; only `slovdrim_sales` writes, and only where it answers.
ghost use Rattle.thirteen.specs.Batch.{thirteen};
ghost use Rattle.gives.specs.Gives.{SaleGives, SalesGives, StopGives};

use crate::lent::files_of;
use naming::stop_named;
use sale::may_sell;
use saleresults::{SaleResult, SalesResult, StopResult, named_handed, sale_handed, sales_handed};
use sales::many_sales;

// The sale question.
#[unsafe(no_mangle)]
pub extern "C" fn slovdrim_sale<'a>(
    f1: &'a [u8],
    f2: &'a [u8],
    f3: &'a [u8],
    f4: &'a [u8],
    f5: &'a [u8],
    f6: &'a [u8],
    f7: &'a [u8],
    f8: &'a [u8],
    f9: &'a [u8],
    f10: &'a [u8],
    f11: &'a [u8],
    f12: &'a [u8],
    f13: &'a [u8],
    holidays: &[u64],
    line: u64,
    trip: u64,
    day: u64,
    month: u64,
    year: u64,
    from: u64,
    to: u64,
) -> SaleResult
    ensures { SaleGives (thirteen f1.now f2.now f3.now f4.now f5.now f6.now f7.now f8.now f9.now f10.now f11.now f12.now f13.now) line trip day month year from to holidays.now result }
{
    let files = files_of(f1, f2, f3, f4, f5, f6, f7, f8, f9, f10, f11, f12, f13);
    sale_handed(may_sell(
        &files,
        &[],
        holidays,
        line,
        trip,
        day,
        month,
        year,
        from,
        to,
    ))
}

// The same with a list that may hold anything: the answer doesn't depend on it.
#[unsafe(no_mangle)]
pub extern "C" fn slovdrim_sale_hinted<'a>(
    f1: &'a [u8],
    f2: &'a [u8],
    f3: &'a [u8],
    f4: &'a [u8],
    f5: &'a [u8],
    f6: &'a [u8],
    f7: &'a [u8],
    f8: &'a [u8],
    f9: &'a [u8],
    f10: &'a [u8],
    f11: &'a [u8],
    f12: &'a [u8],
    f13: &'a [u8],
    order: &[u32],
    holidays: &[u64],
    line: u64,
    trip: u64,
    day: u64,
    month: u64,
    year: u64,
    from: u64,
    to: u64,
) -> SaleResult
    ensures { SaleGives (thirteen f1.now f2.now f3.now f4.now f5.now f6.now f7.now f8.now f9.now f10.now f11.now f12.now f13.now) line trip day month year from to holidays.now result }
{
    let files = files_of(f1, f2, f3, f4, f5, f6, f7, f8, f9, f10, f11, f12, f13);
    sale_handed(may_sell(
        &files, order, holidays, line, trip, day, month, year, from, to,
    ))
}

// Many sale questions: seven numbers each in `asked`, three numbers each into `list`.
#[unsafe(no_mangle)]
pub extern "C" fn slovdrim_sales<'a>(
    f1: &'a [u8],
    f2: &'a [u8],
    f3: &'a [u8],
    f4: &'a [u8],
    f5: &'a [u8],
    f6: &'a [u8],
    f7: &'a [u8],
    f8: &'a [u8],
    f9: &'a [u8],
    f10: &'a [u8],
    f11: &'a [u8],
    f12: &'a [u8],
    f13: &'a [u8],
    order: &[u32],
    holidays: &[u64],
    asked: &[u64],
    list: &mut [u64],
) -> SalesResult
    ensures { SalesGives (thirteen f1.now f2.now f3.now f4.now f5.now f6.now f7.now f8.now f9.now f10.now f11.now f12.now f13.now) holidays.now asked.now list.old (result, list.new) }
{
    let files = files_of(f1, f2, f3, f4, f5, f6, f7, f8, f9, f10, f11, f12, f13);
    sales_handed(many_sales(&files, order, holidays, asked, list))
}

// A stop by its name.
#[unsafe(no_mangle)]
pub extern "C" fn slovdrim_stop<'a>(
    f1: &'a [u8],
    f2: &'a [u8],
    f3: &'a [u8],
    f4: &'a [u8],
    f5: &'a [u8],
    f6: &'a [u8],
    f7: &'a [u8],
    f8: &'a [u8],
    f9: &'a [u8],
    f10: &'a [u8],
    f11: &'a [u8],
    f12: &'a [u8],
    f13: &'a [u8],
    town: &[u8],
    part: &[u8],
    place: &[u8],
) -> StopResult
    ensures { StopGives (thirteen f1.now f2.now f3.now f4.now f5.now f6.now f7.now f8.now f9.now f10.now f11.now f12.now f13.now) town.now part.now place.now result }
{
    let files = files_of(f1, f2, f3, f4, f5, f6, f7, f8, f9, f10, f11, f12, f13);
    named_handed(stop_named(&files, &[], town, part, place))
}

// The same with a list that may hold anything.
#[unsafe(no_mangle)]
pub extern "C" fn slovdrim_stop_hinted<'a>(
    f1: &'a [u8],
    f2: &'a [u8],
    f3: &'a [u8],
    f4: &'a [u8],
    f5: &'a [u8],
    f6: &'a [u8],
    f7: &'a [u8],
    f8: &'a [u8],
    f9: &'a [u8],
    f10: &'a [u8],
    f11: &'a [u8],
    f12: &'a [u8],
    f13: &'a [u8],
    order: &[u32],
    town: &[u8],
    part: &[u8],
    place: &[u8],
) -> StopResult
    ensures { StopGives (thirteen f1.now f2.now f3.now f4.now f5.now f6.now f7.now f8.now f9.now f10.now f11.now f12.now f13.now) town.now part.now place.now result }
{
    let files = files_of(f1, f2, f3, f4, f5, f6, f7, f8, f9, f10, f11, f12, f13);
    named_handed(stop_named(&files, order, town, part, place))
}

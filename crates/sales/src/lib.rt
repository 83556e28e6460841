// Many sale questions on one batch, which is checked once.
#![tactic(auto)]

ghost use Rattle.thirteen.specs.Lent.{batch_of};
ghost use Rattle.selling.specs.Sales.{SalesIs};

use answering::answer_all;
use asking::{Sales, room_for};
use batch::check_with;
use fault::is_none;
use lookup::Paths;
use thirteen::Files;

// Many sale questions: seven numbers each in, three numbers each out. `order` is a hint and may hold anything: no answer depends on it.
pub fn many_sales(
    files: &Files,
    order: &[u32],
    holidays: &[u64],
    asked: &[u64],
    list: &mut [u64],
) -> Sales
    ensures { SalesIs (batch_of files.now) holidays.now asked.now list.old result list.new }
{
    let mut ways: [usize; 33] = [0; 33];
    let fault = check_with(files, order, &mut ways);
    if !is_none(fault) {
        return Sales::Refused(fault);
    }
    match room_for(asked, list) {
        Sales::Refused(short) => Sales::Refused(short),
        Sales::Answered(n) => {
            answer_all(
                asked,
                list,
                files.codes,
                files.lines,
                files.trips,
                files.line_stops,
                files.trip_stops,
                files.time_codes,
                Paths { order, ways: &ways },
                holidays,
            );
            Sales::Answered(n)
        }
    }
}

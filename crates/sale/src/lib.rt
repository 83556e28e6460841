// The sale question: may this trip be sold from this stop to that one on this date, and at what times? Exactly, or with one numbered refusal.
#![tactic(auto)]

ghost use Rattle.thirteen.specs.Lent.{batch_of};
ghost use Rattle.selling.specs.Answers.{SaleIs};

use batch::check_with;
use fault::is_none;
use lookup::Paths;
use outcome::Sale;
use thirteen::Files;
use ticket::sale_on;

// The sale question, with a list of holidays. `order` is a hint and may hold anything: no answer depends on it.
pub fn may_sell(
    files: &Files,
    order: &[u32],
    holidays: &[u64],
    line: u64,
    trip: u64,
    day: u64,
    month: u64,
    year: u64,
    from: u64,
    to: u64,
) -> Sale
    ensures { SaleIs (batch_of files.now) line trip day month year from to holidays.now result }
{
    let mut ways: [usize; 33] = [0; 33];
    let fault = check_with(files, order, &mut ways);
    if !is_none(fault) {
        return Sale::Refused(fault);
    }
    Sale::Told(sale_on(
        line,
        trip,
        day,
        month,
        year,
        from,
        to,
        files.codes,
        files.lines,
        files.trips,
        files.line_stops,
        files.trip_stops,
        files.time_codes,
        Paths { order, ways: &ways },
        holidays,
    ))
}

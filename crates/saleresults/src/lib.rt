// What C is handed of the counter's answers: number and place, and the answer's values, 0 where there is none.
#![tactic(auto)]

ghost use Rattle.std.specs.Prelude.{◌≡◌};
ghost use Rattle.boarding.specs.Answers.{numbered_sold};
ghost use Rattle.outcome.specs.Answers.{numbered_sale};
ghost use Rattle.asking.specs.Answers.{numbered_sales};
ghost use Rattle.named.specs.Names.{numbered_named};
ghost use Rattle.saleresults.specs.Results.{sale_result, plain_sale_result, sales_result, stop_result, plain_stop_result};

use asking::Sales;
use boarding::Sold;
use checkresults::handed;
use named::Named;
use outcome::Sale;

#[repr(C)]
#[derive(Clone, Copy)]
pub struct SaleResult {
    pub number: u64,
    pub file: u64,
    pub record: u64,
    pub field: u64,
    pub offset: u64,
    pub departure: u64,
    pub arrival: u64,
}

#[repr(C)]
#[derive(Clone, Copy)]
pub struct SalesResult {
    pub number: u64,
    pub file: u64,
    pub record: u64,
    pub field: u64,
    pub offset: u64,
    pub answered: u64,
}

#[repr(C)]
#[derive(Clone, Copy)]
pub struct StopResult {
    pub number: u64,
    pub file: u64,
    pub record: u64,
    pub field: u64,
    pub offset: u64,
    pub value: u64,
}

// A refusal with no place, or an answer.
fn plain_sale(number: u64, departure: u64, arrival: u64) -> SaleResult
    ensures { result ≡ plain_sale_result number departure arrival }
{
    SaleResult {
        number,
        file: 0,
        record: 0,
        field: 0,
        offset: 0,
        departure,
        arrival,
    }
}

// The answer on a batch that stands.
#[tactic(auto, unfolding(boarding::specs::Answers::numbered_sold, crate::specs::Results::sale_result))]
fn sold_handed(sold: Sold) -> SaleResult
    ensures { result ≡ sale_result (numbered_sold sold) }
{
    match sold {
        Sold::NoDate => plain_sale(12, 0, 0),
        Sold::NoTrip => plain_sale(13, 0, 0),
        Sold::NoStop => plain_sale(14, 0, 0),
        Sold::NotThatDay => plain_sale(15, 0, 0),
        Sold::NotBefore => plain_sale(16, 0, 0),
        Sold::NoBoarding => plain_sale(17, 0, 0),
        Sold::NoLeaving => plain_sale(18, 0, 0),
        Sold::OneSection => plain_sale(19, 0, 0),
        Sold::At(departure, arrival) => plain_sale(0, departure, arrival),
    }
}

// inner: document 01's number, place and values of an answer.
#[tactic(auto, using(crate::proofs::RefusedLaws::refused_sale), unfolding(outcome::specs::Answers::numbered_sale))]
pub fn sale_handed(answer: Sale) -> SaleResult
    ensures { result ≡ sale_result (numbered_sale answer) }
{
    match answer {
        Sale::Refused(fault) => {
            let p = handed(fault);
            SaleResult {
                number: p.number,
                file: p.file,
                record: p.record,
                field: p.field,
                offset: p.offset,
                departure: 0,
                arrival: 0,
            }
        }
        Sale::Told(sold) => sold_handed(sold),
    }
}

// inner: the same of many questions.
#[tactic(auto, using(crate::proofs::RefusedLaws::refused_sales), unfolding(asking::specs::Answers::numbered_sales, crate::specs::Results::sales_result))]
pub fn sales_handed(answer: Sales) -> SalesResult
    ensures { result ≡ sales_result (numbered_sales answer) }
{
    match answer {
        Sales::Refused(fault) => {
            let p = handed(fault);
            SalesResult {
                number: p.number,
                file: p.file,
                record: p.record,
                field: p.field,
                offset: p.offset,
                answered: 0,
            }
        }
        Sales::Answered(n) => SalesResult {
            number: 0,
            file: 0,
            record: 0,
            field: 0,
            offset: 0,
            answered: n,
        },
    }
}

// A number with no place, and the one value.
fn plain_stop(number: u64, value: u64) -> StopResult
    ensures { result ≡ plain_stop_result number value }
{
    StopResult {
        number,
        file: 0,
        record: 0,
        field: 0,
        offset: 0,
        value,
    }
}

// inner: the same of a stop's name.
#[tactic(auto, using(crate::proofs::RefusedLaws::refused_stop), unfolding(named::specs::Names::numbered_named, crate::specs::Results::stop_result))]
pub fn named_handed(answer: Named) -> StopResult
    ensures { result ≡ stop_result (numbered_named answer) }
{
    match answer {
        Named::Refused(fault) => {
            let p = handed(fault);
            StopResult {
                number: p.number,
                file: p.file,
                record: p.record,
                field: p.field,
                offset: p.offset,
                value: 0,
            }
        }
        Named::Nobody => plain_stop(23, 0),
        Named::Several(n) => plain_stop(24, n),
        Named::Is(stop) => plain_stop(0, stop),
    }
}

// One sale question among many, as the seven numbers that ask it, and its answer as three.
#![tactic(auto)]

ghost use Rattle.std.specs.Prelude.{◌≡◌, [], ◌∷◌, ◌+◌, ◌≤◌, length};
ghost use Rattle.boarding.specs.Answers.{numbered_sold};
ghost use Rattle.asking.specs.Rows.{row};
ghost use Rattle.question.specs.Asked.{asked_at};

use asking::Row;
use boarding::Sold;

// What is asked.
#[derive(Clone, Copy)]
pub struct Question {
    pub line: u64,
    pub trip: u64,
    pub day: u64,
    pub month: u64,
    pub year: u64,
    pub from: u64,
    pub to: u64,
}

// inner: the question that starts at place i
pub fn question_at(asked: &[u64], i: usize) -> Question
    requires { i + 7 ≤ length asked.now }
    ensures { result ≡ asked_at asked.now i }
{
    Question {
        line: asked[i],
        trip: asked[i + 1],
        day: asked[i + 2],
        month: asked[i + 3],
        year: asked[i + 4],
        from: asked[i + 5],
        to: asked[i + 6],
    }
}

// A refusal.
fn no_sale(number: u64) -> Row
    ensures { (result.number ≡ number) × (result.departure ≡ 0) × (result.arrival ≡ 0) }
{
    Row {
        number,
        departure: 0,
        arrival: 0,
    }
}

// inner: the three numbers of an answer
#[tactic(auto, unfolding(boarding::specs::Answers::numbered_sold, asking::specs::Rows::row))]
pub fn row_of(sold: Sold) -> Row
    ensures { row (numbered_sold sold) ≡ result.number ∷ result.departure ∷ result.arrival ∷ [] }
{
    match sold {
        Sold::NoDate => no_sale(12),
        Sold::NoTrip => no_sale(13),
        Sold::NoStop => no_sale(14),
        Sold::NotThatDay => no_sale(15),
        Sold::NotBefore => no_sale(16),
        Sold::NoBoarding => no_sale(17),
        Sold::NoLeaving => no_sale(18),
        Sold::OneSection => no_sale(19),
        Sold::At(departure, arrival) => Row {
            number: 0,
            departure,
            arrival,
        },
    }
}

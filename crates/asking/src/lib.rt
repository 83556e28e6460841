// Many questions and their answers as lists of numbers: seven for a question, three for an answer; and what comes back of them.
#![tactic(auto)]

ghost use Rattle.std.specs.Prelude.{◌≡◌, [], ◌∷◌, ◌+◌, ◌*◌, ◌≤◌, leb, length};
ghost use Rattle.laws.specs.Splice.{splice};
ghost use Rattle.laws.specs.Tests.{pick};
ghost use Rattle.laws.specs.Numbered.{answered, refused};
ghost use Rattle.asking.specs.Rows.{questions};
ghost use Rattle.asking.specs.Answers.{numbered_sales};

use fault::Fault;
use file::Refusal;

// The answer.
#[derive(Clone, Copy)]
pub enum Sales {
    // The batch's own refusal, or 22 (a file's `NoRoom`) where the answers don't fit into the list.
    Refused(Fault),
    // How many questions were answered.
    Answered(u64),
}

// An answer's number and minutes.
#[derive(Clone, Copy)]
pub struct Row {
    pub number: u64,
    pub departure: u64,
    pub arrival: u64,
}

// inner: three numbers into the list; the place behind them
pub fn put_row(list: &mut [u64], at: usize, row: Row) -> usize
    requires { at + 3 ≤ length list.old }
    ensures { (result ≡ at + 3) × (list.new ≡ splice list.old at (row.number ∷ row.departure ∷ row.arrival ∷ [])) }
{
    list[at] = row.number;
    list[at + 1] = row.departure;
    list[at + 2] = row.arrival;
    at + 3
}

// inner: how many questions there are, or 22 where their answers don't fit into the list
pub fn room_for(asked: &[u64], list: &[u64]) -> Sales
    ensures { numbered_sales result ≡ pick (leb (3 * questions asked.now) (length list.now)) (answered (questions asked.now ∷ [])) (refused 22) }
{
    let n = asked.len() / 7;
    if list.len() / 3 < n {
        return Sales::Refused(Fault::File(Refusal::NoRoom));
    }
    Sales::Answered(n as u64)
}

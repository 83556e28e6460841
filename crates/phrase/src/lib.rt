// What the check program's line is made of: document 01, "The check program and the desk host". Each text and each number is laid behind the last.
#![tactic(auto)]

ghost use Rattle.std.specs.Prelude.{◌≡◌, ◌+◌, ◌≤◌, length};
ghost use Rattle.laws.specs.Splice.{splice};
ghost use Rattle.phrase.specs.Phrases.{labelled, accepted_line, refused_line};

use decimal::number;

// inner: lays t over d from `at` on, and answers the place after it
pub fn lay(d: &mut [u8], at: usize, t: &[u8]) -> usize
    requires { at + length t.now ≤ length d.old }
    ensures { (d.new ≡ splice d.old at t.now) × (result ≡ at + length t.now) }
{
    let end = at + t.len();
    d[at..end].copy_from_slice(t);
    end
}

// A text and a number behind it: 20 digits at most.
fn lay_number(d: &mut [u8], at: usize, t: &[u8], n: u64) -> usize
    requires { at + (length t.now + 20) ≤ length d.old }
    ensures { (d.new ≡ splice d.old at (labelled t.now n)) × (result ≡ at + length (labelled t.now n)) × (result ≤ at + (length t.now + 20)) }
{
    let next = lay(d, at, t);
    number(d, next, n)
}

// inner: the line of an accepted batch
pub fn lay_accepted(stops: u64, lines: u64, trips: u64, trip_stops: u64, d: &mut [u8]) -> usize
    requires { 134 ≤ length d.old }
    ensures { (d.new ≡ splice d.old 0 (accepted_line stops lines trips trip_stops)) × (result ≡ length (accepted_line stops lines trips trip_stops)) × (result ≤ 134) }
{
    let a = lay_number(d, 0, b"ACCEPTED stops ", stops);
    let b = lay_number(d, a, b" lines ", lines);
    let e = lay_number(d, b, b" trips ", trips);
    let f = lay_number(d, e, b" trip stops ", trip_stops);
    lay(d, f, b"\n")
}

// A fault's number and place.
#[derive(Clone, Copy)]
pub struct Place {
    pub number: u64,
    pub file: u64,
    pub row: u64,
    pub column: u64,
    pub offset: u64,
}

// inner: the line of a fault
pub fn lay_refused(p: Place, d: &mut [u8]) -> usize
    requires { 134 ≤ length d.old }
    ensures { (d.new ≡ splice d.old 0 (refused_line p.number p.file p.row p.column p.offset)) × (result ≡ length (refused_line p.number p.file p.row p.column p.offset)) × (result ≤ 134) }
{
    let a = lay_number(d, 0, b"REFUSED ", p.number);
    let b = lay_number(d, a, b" file ", p.file);
    let e = lay_number(d, b, b" record ", p.row);
    let f = lay_number(d, e, b" field ", p.column);
    let g = lay_number(d, f, b" at ", p.offset);
    lay(d, g, b"\n")
}

// The number of a file's records, and the stretch of one field: document 01, "Bytes of a file". Nothing is copied.
#![tactic(auto)]

ghost use Rattle.std.specs.Prelude.{◌≡◌, ◌<◌, length, IfOk};
ghost use Rattle.file.specs.Fields.{closing, next_field};
ghost use Rattle.file.specs.Reader.{Sought, OpensAt, Inside, text_after, Reads, text_in};
ghost use Rattle.file.specs.Answers.{numbered_stretch, RecordsIs, StretchIs, PartIs};

use file::{Outcome, Refusal, Stretch, fields_of};
use quotes::text_end;
use scanner::read;

// The greatest length of a file.
const LONGEST: usize = 16_777_215;

// How many bytes close a field.
fn closing_size(last: bool) -> usize
    ensures { result ≡ length (closing last) }
{
    if last { 4 } else { 2 }
}

// The fields ended in a record after one more.
fn next_field(last: bool, field: usize) -> usize
    requires { field < 18446744073709551615 }
    ensures { result ≡ next_field last field }
{
    if last { 0 } else { field + 1 }
}

// The place of the opening quote of the text that so many others stand before.
fn opening_of(s: &[u8], n: usize, others: usize) -> usize
    requires { Sought n s.now others }
    ensures { OpensAt n s.now others result }
{
    let mut at = 0;
    let mut field = 0;
    for passed in 0..others {
        let last = field + 1 == n;
        at = text_end(s, at + 1) + closing_size(last);
        field = next_field(last, field);
    }
    at
}

// The stretch of the text that so many others stand before.
fn text_after(s: &[u8], n: usize, others: usize) -> Stretch
    requires { Sought n s.now others }
    ensures { (result ≡ text_after n s.now others) × Inside (length s.now) result }
{
    let start = opening_of(s, n, others) + 1;
    let size = text_end(&s[start..], 0);
    Stretch {
        start: start as u64,
        size: size as u64,
    }
}

// The stretch of field f of record r in a legal file of k records.
fn text_of(s: &[u8], n: usize, k: u64, r: u64, f: u64) -> Result<Stretch, Refusal>
    requires { Reads n s.now k }
    ensures { (numbered_stretch result ≡ text_in n s.now k r f) × IfOk result (λ x. Inside (length s.now) x) }
{
    if r == 0 || r > k || f == 0 || f > n as u64 {
        return Err(Refusal::NoSuch);
    }
    let rows = (r - 1) as usize;
    Ok(text_after(s, n, rows * n + (f - 1) as usize))
}

// The number of records of a file, or why it is refused.
pub fn records(file: u64, s: &[u8]) -> Result<u64, Refusal>
    ensures { RecordsIs file s.now result }
{
    let n = fields_of(file);
    if n == 0 {
        return Err(Refusal::NoSuch);
    }
    if s.len() > LONGEST {
        return Err(Refusal::TooLong(file));
    }
    match read(s, n) {
        Outcome::Whole(k) => Ok(k as u64),
        Outcome::Unfit(at) => Err(Refusal::Unfit(file, at as u64)),
        Outcome::CutShort(at) => Err(Refusal::CutShort(file, at as u64)),
    }
}

// inner: the stretch, and that it is inside the file.
fn locate(file: u64, s: &[u8], r: u64, f: u64) -> Result<Stretch, Refusal>
    ensures { StretchIs file s.now r f result × IfOk result (λ x. Inside (length s.now) x) }
{
    let k = records(file, s)?;
    text_of(s, fields_of(file), k, r, f)
}

// Where field f of record r stands, or why it is refused; both count from 1.
pub fn stretch_of(file: u64, s: &[u8], r: u64, f: u64) -> Result<Stretch, Refusal>
    ensures { StretchIs file s.now r f result }
{
    locate(file, s, r, f)
}

// That very part of the file; an empty one with any refusal.
pub fn stretch_part(file: u64, s: &[u8], r: u64, f: u64) -> &[u8]
    ensures { PartIs file s.now r f result.now }
{
    match locate(file, s, r, f) {
        Ok(part) => {
            let a = part.start as usize;
            let e = a + part.size as usize;
            &s[a..e]
        }
        Err(_) => &s[..0],
    }
}

// The scan of a file, field by field: document 01, "Bytes of a file". It answers what the reading of file's specs/Reading.antt comes to, byte by byte, and
// copies nothing. What scans a field or a record answers where the next one starts, or the place that it gets no further than.
#![tactic(auto)]

ghost use Rattle.std.specs.Prelude.{◌≡◌, true, ◌≤◌, ◌<◌, ltb, length, drop};
ghost use Rattle.file.specs.Bytes.{starts};
ghost use Rattle.file.specs.Fields.{ahead_at, ahead_from, halt};
ghost use Rattle.file.specs.Reader.{AheadNear, EndsNear, RecordAhead};
ghost use Rattle.file.specs.Reading.{reading};

use file::Outcome;
use quotes::text_close;

// inner: whether the byte b stands at this place.
pub fn stands(s: &[u8], at: usize, b: u8) -> bool
    ensures { (result ≡ starts b (drop at s.now)) × (result ≡ true → at < length s.now) }
{
    at < s.len() && s[at] == b
}

// What follows a record's last field: semicolon, CR, LF from this place on.
fn record_end(s: &[u8], at: usize) -> Result<usize, usize>
    ensures { (result ≡ ahead_from s.now true at) × EndsNear s.now at result }
{
    if !stands(s, at, b';') {
        return Err(at);
    }
    if !stands(s, at + 1, b'\r') {
        return Err(at + 1);
    }
    if !stands(s, at + 2, b'\n') {
        return Err(at + 2);
    }
    Ok(at + 3)
}

// The record's last field, which is due at this place, and what follows it.
fn last_field(s: &[u8], at: usize) -> Result<usize, usize>
    requires { at ≤ length s.now }
    ensures { (result ≡ ahead_at s.now at true) × AheadNear s.now at result }
{
    if !stands(s, at, b'"') {
        return Err(at);
    }
    let close = text_close(s, at + 1);
    record_end(s, close)
}

// The record that starts at this place: its fields but the last, each with its comma, and then the last. A refusal leaves the loop at once.
fn record_ahead(s: &[u8], start: usize, n: usize) -> Result<usize, usize>
    requires { (start < length s.now) × (1 ≤ n) }
    ensures { RecordAhead n s.now start result }
{
    let mut at = start;
    for field in 1..n {
        if !stands(s, at, b'"') {
            return Err(at);
        }
        let close = text_close(s, at + 1);
        if !stands(s, close, b',') {
            return Err(close);
        }
        at = close + 1;
    }
    last_field(s, at)
}

// A reading that gets no further than this place.
fn halted(s: &[u8], at: usize) -> Outcome
    ensures { result ≡ halt at (ltb at (length s.now)) }
{
    if at < s.len() {
        Outcome::Unfit(at)
    } else {
        Outcome::CutShort(at)
    }
}

// inner: what the reading of a file whose records have n fields comes to.
pub fn read(s: &[u8], n: usize) -> Outcome
    requires { 1 ≤ n }
    ensures { result ≡ reading n s.now }
{
    let mut at = 0;
    let mut records = 0;
    while at < s.len() {
        match record_ahead(s, at, n) {
            Ok(next) => at = next,
            Err(place) => return halted(s, place),
        }
        records += 1;
    }
    Outcome::Whole(records)
}

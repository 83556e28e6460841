// The writer: one field into the middle of a lent buffer. Document 01, "Bytes of a file": a quote, the text, a quote and what follows
// a field; no other byte changes, and none with a refusal.
#![tactic(auto)]

ghost use Rattle.std.specs.Prelude.{◌≡◌, ◌∷◌, ◌+◌, ◌≤◌, length};
ghost use Rattle.laws.specs.Splice.{splice};
ghost use Rattle.file.specs.Bytes.{quote};
ghost use Rattle.file.specs.Format.{ending, written_field};
ghost use Rattle.file.specs.Writing.{has_field, WriteIs};

use file::{Refusal, fields_of};
use quotes::permitted;

// Lays t over d from `at` on: all that touches the buffer. Byte by byte, since the library's copy of a slice becomes a call of the C library's `memmove`,
// and the archive needs nothing of it but `memset`.
fn copy(d: &mut [u8], at: usize, t: &[u8])
    requires { at + length t.now ≤ length d.old }
    ensures { d.new ≡ splice d.old at t.now }
{
    for i in 0..t.len() {
        d[at + i] = t[i];
    }
}

// A field at the front of d.
fn lay(d: &mut [u8], t: &[u8], last: bool)
    requires { length (written_field last t.now) ≤ length d.old }
    ensures { d.new ≡ splice d.old 0 (written_field last t.now) }
{
    copy(d, 0, b"\"");
    copy(d, 1, t);
    let end = t.len() + 1;
    if last {
        copy(d, end, b"\";\r\n");
    } else {
        copy(d, end, b"\",");
    }
}

// How many bytes a field has beside its text.
fn beside(last: bool) -> usize
    ensures { result ≡ length (quote ∷ quote ∷ ending last) }
{
    if last { 5 } else { 3 }
}

// Whether the file has a field of this number.
fn has_field(file: u64, field: u64) -> bool
    ensures { result ≡ has_field file field }
{
    field != 0 && field <= fields_of(file) as u64
}

// Lays the text as field `field` of a record of file `file` from `place` on, and answers the place after it.
pub fn write(file: u64, field: u64, text: &[u8], d: &mut [u8], place: u64) -> Result<u64, Refusal>
    ensures { WriteIs file field text.now d.old place result d.new }
{
    if !has_field(file, field) {
        return Err(Refusal::NoSuch);
    }
    if !permitted(text) {
        return Err(Refusal::NotPermitted);
    }
    let last = field == fields_of(file) as u64;
    let size = text.len() + beside(last);
    let at = place as usize;
    // the place first: a sum of it and the size may not fit a number
    if at > d.len() || size > d.len() - at {
        return Err(Refusal::NoRoom);
    }
    lay(&mut d[at..], text, last);
    Ok((at + size) as u64)
}

// Where a text stops: its plain bytes are skipped by their class, and at a quote it is seen whether a field ends there.
#![tactic(auto)]

ghost use Rattle.std.specs.Prelude.{◌≡◌, ◌≤◌, ◌<◌, length, drop};
ghost use Rattle.file.specs.Bytes.{ends, goes, closes, plain_run, permitted_text};
ghost use Rattle.file.specs.Reader.{Reached};

use file::class_of;

// The first place from `at` on whose byte is not plain. It goes by two bytes a step, since in each step the compiler forms the address of the class table
// anew, and whether the bytes are at their end is asked once.
fn plain_end(s: &[u8], at: usize) -> usize
    requires { at ≤ length s.now }
    ensures { Reached s.now at (plain_run (drop at s.now)) result }
{
    let mut i = at;
    while i + 1 < s.len() {
        if class_of(s[i]) != b'.' {
            return i;
        }
        if class_of(s[i + 1]) != b'.' {
            return i + 1;
        }
        i += 2;
    }
    if i < s.len() && class_of(s[i]) == b'.' {
        i + 1
    } else {
        i
    }
}

// Whether a field ends at this place.
fn ends_at(s: &[u8], at: usize) -> bool
    requires { at < length s.now }
    ensures { result ≡ ends (drop at s.now) }
{
    s[at] == b'"' && at + 1 < s.len() && matches!(s[at + 1], b',' | b';')
}

// inner: the first place from `at` on at which a text doesn't go on.
pub fn text_end(s: &[u8], at: usize) -> usize
    requires { at ≤ length s.now }
    ensures { Reached s.now at (goes (drop at s.now)) result }
{
    let mut i = plain_end(s, at);
    while i < s.len() {
        if s[i] != b'"' || ends_at(s, i) {
            return i;
        }
        i = plain_end(s, i + 1);
    }
    i
}

// inner: the place past the text's closing quote, where a comma or semicolon stands, or where the text stops if no field ends there. It has a loop of its own,
// as `text_end` has, since it is the scan's: by way of `text_end` the quote would be looked at again behind that loop.
pub fn text_close(s: &[u8], at: usize) -> usize
    requires { at ≤ length s.now }
    ensures { Reached s.now at (closes (drop at s.now)) result }
{
    let mut i = plain_end(s, at);
    while i < s.len() {
        if s[i] != b'"' {
            return i;
        }
        if ends_at(s, i) {
            return i + 1;
        }
        i = plain_end(s, i + 1);
    }
    i
}

// inner: whether the text is permitted.
pub fn permitted(t: &[u8]) -> bool
    ensures { result ≡ permitted_text t.now }
{
    text_end(t, 0) == t.len()
}

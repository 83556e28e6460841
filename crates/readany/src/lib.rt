// A record of any file, its bytes read field by field, each by its kind, so that a number's are looked at once; the places of its texts are marked. What is
// wrong, and where, is not said: `None` is answered then.
#![tactic(auto)]

ghost use Rattle.std.specs.Prelude.{◌≡◌, ◌≤◌, length, IfSome};
ghost use Rattle.readany.specs.Reads.{LineTo, ReadTo};

use onward::{any_on, begin};
use scanner::stands;

// inner: the place behind CR and LF, due at this place
pub fn line_end(s: &[u8], at: usize) -> Option<usize>
    ensures { IfSome result (λ next. LineTo s.now at next) }
{
    if !stands(s, at, b'\r') || !stands(s, at + 1, b'\n') {
        return None;
    }
    Some(at + 2)
}

// inner: reads the record that starts at this place, and marks its texts' places as `walk::cut` does. Answers where the next record starts.
pub fn read_any(
    file: u64,
    s: &[u8],
    start: usize,
    n: usize,
    places: &mut [usize; 14],
) -> Option<usize>
    requires { (start ≤ length s.now) × (1 ≤ n) × (n ≤ 13) }
    ensures { IfSome result (λ next. ReadTo file n s.now start places.new next) }
{
    let mut at = begin(file, n, s, start, places);
    for f in 0..n {
        at = any_on(file, f, n, s, start, at, places)?;
    }
    line_end(s, at)
}

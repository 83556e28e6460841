// The fields of a record, one behind another: each step reads the field that is due at a place, marks where the text behind it starts, and answers where
// the field behind it is due. `None` is answered where the field is not so.
#![tactic(auto)]

ghost use Rattle.std.specs.Prelude.{◌≡◌, true, [], ◌+◌, ◌≤◌, ◌<◌, length, IfSome};
ghost use Rattle.field.specs.Kinds.{admits};
ghost use Rattle.field.specs.declared.Kind.{Kind};
ghost use Rattle.onward.specs.Onward.{FieldTo, follower, Due, Ahead, Codes, LineFirst};

use extent::{kind_end, maybe_end, maybe_number_end, number_end, sized_end, time_end};
use field::Kind;
use kinds::kind_of;
use scanner::stands;

// What follows field f of n.
fn follower_of(f: usize, n: usize) -> u8
    ensures { result ≡ follower f n }
{
    if f < n { b',' } else { b';' }
}

// inner: begins a record that starts at this place, where its first field is due: marks where its text starts.
pub fn begin(file: u64, n: usize, s: &[u8], start: usize, places: &mut [usize]) -> usize
    requires { (start ≤ length s.now) × (n ≤ 13) × (length places.old ≡ 14) }
    ensures { Due file n s.now start places.new 0 result }
{
    places[0] = start + 1;
    start
}

// Closes field f + 1 of n, which is due at `at` and whose text ends at `end`: marks where the text behind it starts, and answers where the field
// behind it is due.
fn close_on(
    file: u64,
    f: usize,
    n: usize,
    s: &[u8],
    start: usize,
    at: usize,
    end: usize,
    places: &mut [usize; 14],
) -> Option<usize>
    requires { Due file n s.now start places.old f at × (f < n) × FieldTo file (f + 1) s.now at end }
    ensures { IfSome result (λ next. Due file n s.now start places.new (f + 1) next) }
{
    if !stands(s, end, b'"') || !stands(s, end + 1, follower_of(f + 1, n)) {
        return None;
    }
    places[f + 1] = end + 3;
    Some(end + 2)
}

// inner: reads field f + 1, due at this place: a number of a to b digits. Answers as `close_on` does.
pub fn number_on(
    file: u64,
    f: usize,
    n: usize,
    s: &[u8],
    start: usize,
    at: usize,
    a: usize,
    b: usize,
    places: &mut [usize; 14],
) -> Option<usize>
    requires { Ahead (Kind.Digits a b) file n s.now start places.old f at }
    ensures { IfSome result (λ next. Due file n s.now start places.new (f + 1) next) }
{
    if !stands(s, at, b'"') {
        return None;
    }
    let end = number_end(s, at + 1, a, b)?;
    close_on(file, f, n, s, start, at, end, places)
}

// inner: the same, of a number that may be left out.
pub fn maybe_number_on(
    file: u64,
    f: usize,
    n: usize,
    s: &[u8],
    start: usize,
    at: usize,
    a: usize,
    b: usize,
    places: &mut [usize; 14],
) -> Option<usize>
    requires { Ahead (Kind.MaybeDigits a b) file n s.now start places.old f at }
    ensures { IfSome result (λ next. Due file n s.now start places.new (f + 1) next) }
{
    if !stands(s, at, b'"') {
        return None;
    }
    let end = maybe_number_end(s, at + 1, a, b)?;
    close_on(file, f, n, s, start, at, end, places)
}

// inner: the same, of a text of a to b bytes.
pub fn text_on(
    file: u64,
    f: usize,
    n: usize,
    s: &[u8],
    start: usize,
    at: usize,
    a: usize,
    b: usize,
    places: &mut [usize; 14],
) -> Option<usize>
    requires { Ahead (Kind.Text a b) file n s.now start places.old f at }
    ensures { IfSome result (λ next. Due file n s.now start places.new (f + 1) next) }
{
    if !stands(s, at, b'"') {
        return None;
    }
    let end = sized_end(s, at + 1, a, b)?;
    close_on(file, f, n, s, start, at, end, places)
}

// inner: the same, of a time.
pub fn time_on(
    file: u64,
    f: usize,
    n: usize,
    s: &[u8],
    start: usize,
    at: usize,
    places: &mut [usize; 14],
) -> Option<usize>
    requires { Ahead Kind.Time file n s.now start places.old f at }
    ensures { IfSome result (λ next. Due file n s.now start places.new (f + 1) next) }
{
    if !stands(s, at, b'"') {
        return None;
    }
    let end = time_end(s, at + 1)?;
    close_on(file, f, n, s, start, at, end, places)
}

// inner: the same, of a text of some kind that may be empty.
pub fn maybe_on(
    file: u64,
    f: usize,
    n: usize,
    s: &[u8],
    start: usize,
    at: usize,
    kind: Kind,
    places: &mut [usize; 14],
) -> Option<usize>
    requires { Ahead kind file n s.now start places.old f at × (admits kind [] ≡ true) }
    ensures { IfSome result (λ next. Due file n s.now start places.new (f + 1) next) }
{
    if !stands(s, at, b'"') {
        return None;
    }
    let end = maybe_end(kind, s, at + 1)?;
    close_on(file, f, n, s, start, at, end, places)
}

// inner: the same, of whatever kind the field is.
pub fn any_on(
    file: u64,
    f: usize,
    n: usize,
    s: &[u8],
    start: usize,
    at: usize,
    places: &mut [usize; 14],
) -> Option<usize>
    requires { Due file n s.now start places.old f at × (f < n) }
    ensures { IfSome result (λ next. Due file n s.now start places.new (f + 1) next) }
{
    if !stands(s, at, b'"') {
        return None;
    }
    let end = kind_end(kind_of(file, (f + 1) as u64), s, at + 1)?;
    close_on(file, f, n, s, start, at, end, places)
}

// inner: reads the fields behind f up to g, which are codes, the first of them due at this place.
pub fn codes_on(
    file: u64,
    f: usize,
    g: usize,
    n: usize,
    s: &[u8],
    start: usize,
    from: usize,
    places: &mut [usize; 14],
) -> Option<usize>
    requires { Due file n s.now start places.old f from × (f ≤ g) × (g ≤ n) × Codes file f g }
    ensures { IfSome result (λ next. Due file n s.now start places.new g next) }
{
    let mut at = from;
    for i in f..g {
        at = maybe_number_on(file, i, n, s, start, at, 1, 5, places)?;
    }
    Some(at)
}

// inner: reads the first two fields of a record that starts at this place: a line and a number.
pub fn line_and_number(
    file: u64,
    n: usize,
    s: &[u8],
    start: usize,
    places: &mut [usize; 14],
) -> Option<usize>
    requires { (start ≤ length s.now) × (2 ≤ n) × (n ≤ 13) × LineFirst file }
    ensures { IfSome result (λ next. Due file n s.now start places.new 2 next) }
{
    let first = begin(file, n, s, start, places);
    let second = number_on(file, 0, n, s, start, first, 6, 6, places)?;
    number_on(file, 1, n, s, start, second, 1, 9, places)
}

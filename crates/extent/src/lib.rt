// Where a text of each kind ends that starts at a place of a file: document 01, "Fields", and the bytes of a text. A number's bytes are looked at
// once, as its digits. What is wrong, and where, is not said: `None` is answered then.
#![tactic(auto)]

ghost use Rattle.std.specs.Prelude.{◌≡◌, true, [], ◌≤◌, length, drop, IfSome};
ghost use Rattle.file.specs.Reader.{Reached};
ghost use Rattle.field.specs.Kinds.{admits};
ghost use Rattle.field.specs.declared.Kind.{Kind};
ghost use Rattle.extent.specs.Extent.{digit_run, TextTo};

use admits::admits_text;
use field::{Kind, is_time};
use quotes::text_end;
use scanner::stands;

// The first place from `at` on at which no digit stands.
#[tactic(auto, using(crate::proofs::TextLaws::run_low, crate::proofs::TextLaws::run_high, crate::proofs::TextLaws::run_next, crate::proofs::TextLaws::run_end))]
fn digits_end(s: &[u8], at: usize) -> usize
    requires { at ≤ length s.now }
    ensures { Reached s.now at (digit_run (drop at s.now)) result }
{
    for i in at..s.len() {
        if !matches!(s[i], b'0'..=b'9') {
            return i;
        }
    }
    s.len()
}

// inner: where a number of a to b digits ends that starts at this place.
pub fn number_end(s: &[u8], at: usize, a: usize, b: usize) -> Option<usize>
    requires { at ≤ length s.now }
    ensures { IfSome result (λ end. TextTo (Kind.Digits a b) s.now at end) }
{
    let end = digits_end(s, at);
    let size = end - at;
    if a <= size && size <= b {
        Some(end)
    } else {
        None
    }
}

// inner: the same, or no text at all.
pub fn maybe_number_end(s: &[u8], at: usize, a: usize, b: usize) -> Option<usize>
    requires { at ≤ length s.now }
    ensures { IfSome result (λ end. TextTo (Kind.MaybeDigits a b) s.now at end) }
{
    if stands(s, at, b'"') {
        Some(at)
    } else {
        number_end(s, at, a, b)
    }
}

// Where a text of some kind ends.
#[tactic(auto, using(crate::proofs::TextLaws::text_to))]
fn any_end(kind: Kind, s: &[u8], at: usize) -> Option<usize>
    requires { at ≤ length s.now }
    ensures { IfSome result (λ end. TextTo kind s.now at end) }
{
    let end = text_end(s, at);
    if admits_text(kind, &s[at..end]) {
        Some(end)
    } else {
        None
    }
}

// inner: where a text of a to b bytes ends.
pub fn sized_end(s: &[u8], at: usize, a: usize, b: usize) -> Option<usize>
    requires { at ≤ length s.now }
    ensures { IfSome result (λ end. TextTo (Kind.Text a b) s.now at end) }
{
    let end = text_end(s, at);
    let size = end - at;
    if a <= size && size <= b {
        Some(end)
    } else {
        None
    }
}

// Where a time of four digits ends.
fn clock_end(s: &[u8], at: usize) -> Option<usize>
    requires { at ≤ length s.now }
    ensures { IfSome result (λ end. TextTo Kind.Time s.now at end) }
{
    if s.len() - at >= 4 && is_time(&s[at..at + 4]) {
        Some(at + 4)
    } else {
        None
    }
}

// inner: the same, or `|`, `<`, or no text at all.
pub fn time_end(s: &[u8], at: usize) -> Option<usize>
    requires { at ≤ length s.now }
    ensures { IfSome result (λ end. TextTo Kind.Time s.now at end) }
{
    if stands(s, at, b'"') {
        Some(at)
    } else if stands(s, at, b'|') || stands(s, at, b'<') {
        Some(at + 1)
    } else {
        clock_end(s, at)
    }
}

// inner: where a text of some kind ends that may be empty.
#[tactic(auto, using(crate::proofs::TextLaws::no_text))]
pub fn maybe_end(kind: Kind, s: &[u8], at: usize) -> Option<usize>
    requires { (at ≤ length s.now) × (admits kind [] ≡ true) }
    ensures { IfSome result (λ end. TextTo kind s.now at end) }
{
    if stands(s, at, b'"') {
        Some(at)
    } else {
        any_end(kind, s, at)
    }
}

// inner: where the text of this kind ends that starts at this place.
pub fn kind_end(kind: Kind, s: &[u8], at: usize) -> Option<usize>
    requires { at ≤ length s.now }
    ensures { IfSome result (λ end. TextTo kind s.now at end) }
{
    match kind {
        Kind::Digits(a, b) => number_end(s, at, a, b),
        Kind::MaybeDigits(a, b) => maybe_number_end(s, at, a, b),
        _ => any_end(kind, s, at),
    }
}

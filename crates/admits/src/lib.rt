// What each kind of field admits: document 01, "Fields". All of it is inner: what each function means is its definition in the crate `field`,
// specs/Kinds.antt and specs/Values.antt.
#![tactic(auto)]

ghost use Rattle.std.specs.Prelude.{◌≡◌};
ghost use Rattle.laws.specs.Tests.{one_of};
ghost use Rattle.field.specs.Values.{is_empty, among, sized};
ghost use Rattle.field.specs.Kinds.{admits};

use field::{Kind, is_date, is_digits, is_one_of, is_time};

// The length is one of a to b.
fn is_sized(t: &[u8], a: usize, b: usize) -> bool
    ensures { result ≡ sized a b t.now }
{
    a <= t.len() && t.len() <= b
}

#[tactic(auto, unfolding(field::specs::Kinds::admits))]
fn maybe_digits(t: &[u8], a: usize, b: usize) -> bool
    ensures { result ≡ admits (Kind.MaybeDigits a b) t.now }
{
    t.is_empty() || is_digits(t, a, b)
}

#[tactic(auto, unfolding(field::specs::Kinds::admits))]
fn maybe_date(t: &[u8]) -> bool
    ensures { result ≡ admits Kind.MaybeDate t.now }
{
    t.is_empty() || is_date(t)
}

fn maybe_one_of(t: &[u8], set: &[u8]) -> bool
    ensures { result ≡ one_of (is_empty t.now) (among set.now t.now) }
{
    t.is_empty() || is_one_of(t, set)
}

// HHMM, or `|`, `<`, or empty.
#[tactic(auto, unfolding(field::specs::Kinds::admits))]
fn is_time_field(t: &[u8]) -> bool
    ensures { result ≡ admits Kind.Time t.now }
{
    maybe_one_of(t, b"|<") || is_time(t)
}

// inner: a text of this kind
#[tactic(auto, unfolding(field::specs::Kinds::admits, field::specs::Kinds::signs, field::specs::Kinds::line_types))]
pub fn admits_text(kind: Kind, t: &[u8]) -> bool
    ensures { result ≡ admits kind t.now }
{
    match kind {
        Kind::Digits(a, b) => is_digits(t, a, b),
        Kind::MaybeDigits(a, b) => maybe_digits(t, a, b),
        Kind::Text(a, b) => is_sized(t, a, b),
        Kind::Date => is_date(t),
        Kind::MaybeDate => maybe_date(t),
        Kind::Time => is_time_field(t),
        Kind::Sign => is_one_of(t, b"X+1234567R#|<@%Wwx~I()${}[Ovs\xA7"),
        Kind::Firm => is_one_of(t, b"12"),
        Kind::LineType => is_one_of(t, b"ABMNPVWZ"),
        Kind::CodeType => maybe_one_of(t, b"12345678"),
        Kind::WeekType => maybe_one_of(t, b"56"),
        Kind::None => false,
    }
}

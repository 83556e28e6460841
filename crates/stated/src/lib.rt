// Document 01's rules inside one record that are on what it has to state: the district, a name, times and kilometres, asked of texts. All of it is inner:
// what each function means is its definition in the crate field, specs/Rules.antt.
#![tactic(auto)]

ghost use Rattle.std.specs.Prelude.{◌≡◌};
ghost use Rattle.laws.specs.Tests.{both, one_of};
ghost use Rattle.field.specs.Values.{is_empty, given, is_byte, is_time};
ghost use Rattle.field.specs.Rules.{asks, alike, is_cz, times_rule, time_or_bar};

use field::{is_byte, is_time};

#[tactic(auto, using(crate::proofs::StatedLaws::cz_other, crate::proofs::StatedLaws::cz_two))]
fn is_cz(t: &[u8]) -> bool
    ensures { result ≡ is_cz t.now }
{
    t.len() == 2 && t[0] == b'C' && t[1] == b'Z'
}

// inner: the district is given if the state is CZ
pub fn district_given(district: &[u8], country: &[u8]) -> bool
    ensures { result ≡ asks (is_cz country.now) (given district.now) }
{
    !is_cz(country) || !district.is_empty()
}

// inner: the person's name is given if the firm's kind is 2
pub fn name_given(kind: &[u8], name: &[u8]) -> bool
    ensures { result ≡ asks (is_byte 50 kind.now) (given name.now) }
{
    !is_byte(kind, b'2') || !name.is_empty()
}

fn is_none_or_time(t: &[u8]) -> bool
    ensures { result ≡ one_of (is_empty t.now) (is_time t.now) }
{
    t.is_empty() || is_time(t)
}

// Departure this sign, with arrival empty or the same.
fn is_signed(a: &[u8], d: &[u8], sign: u8) -> bool
    ensures { result ≡ both (is_byte sign d.now) (one_of (is_empty a.now) (is_byte sign a.now)) }
{
    is_byte(d, sign) && (a.is_empty() || is_byte(a, sign))
}

// Each of the two is empty or a time.
fn is_timed(a: &[u8], d: &[u8]) -> bool
    ensures { result ≡ both (one_of (is_empty a.now) (is_time a.now)) (one_of (is_empty d.now) (is_time d.now)) }
{
    is_none_or_time(a) && is_none_or_time(d)
}

// inner: how arrival and departure may go together
#[tactic(auto, using(crate::proofs::StatedLaws::times_are))]
pub fn times_fit(a: &[u8], d: &[u8]) -> bool
    ensures { result ≡ times_rule a.now d.now }
{
    is_timed(a, d) || is_signed(a, d, b'|') || is_signed(a, d, b'<')
}

// There is a time or `|`.
#[tactic(auto, unfolding(field::specs::Rules::time_or_bar))]
fn time_or_bar(a: &[u8], d: &[u8]) -> bool
    ensures { result ≡ time_or_bar a.now d.now }
{
    is_time(a) || is_time(d) || is_byte(a, b'|') || is_byte(d, b'|')
}

// inner: kilometres are given exactly when there is a time or `|`
pub fn kilometres_fit(km: &[u8], a: &[u8], d: &[u8]) -> bool
    ensures { result ≡ alike (given km.now) (time_or_bar a.now d.now) }
{
    km.is_empty() != time_or_bar(a, d)
}

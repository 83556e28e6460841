// Time codes: what one says, and what those of a trip come to, by a list in which place t is 1 if there is one of type t, else 0.
#![tactic(auto)]

ghost use Rattle.std.specs.Prelude.{◌≡◌, true, not, List, ℕ, ◌≤◌, eqb};
ghost use Rattle.laws.specs.Tests.{pick, both};
ghost use Rattle.periods.specs.Periods.{parity_fits};
ghost use Rattle.file.specs.Format.{Fields};
ghost use Rattle.field.specs.Names.{time_codes_file, mark};
ghost use Rattle.field.specs.Rules.{meets};
ghost use Rattle.field.specs.Values.{value};
ghost use Rattle.rules.specs.Texts.{texts, Kinded};
ghost use Rattle.trip.specs.Days.{type_of, holds_day, two_marks, two_weeks, one_with_weeks, beside_three, has_day_sign, days_fit, signs_allow, weeks_allow, codes_allow};
ghost use Rattle.codes.specs.Seen.{Flags, Seen, Held};

use field::{day_of, value_of};
use walk::{CutRecord, part};

// inner: the type of a time code; 0 if it has none
pub fn type_of(row: CutRecord) -> u64
    requires { Kinded time_codes_file row.bytes.now row.places.now }
    ensures { (result ≡ type_of (texts time_codes_file row.entry.bytes.now row.entry.places.now)) × (result ≤ 8) }
{
    let t = part(row, 4);
    if t.is_empty() {
        return 0;
    }
    u64::from(t[0] - b'0')
}

// inner: whether the period of a time code holds day d
pub fn holds_day(row: CutRecord, d: u64) -> bool
    requires { Kinded time_codes_file row.bytes.now row.places.now }
    ensures { result ≡ holds_day d (texts time_codes_file row.entry.bytes.now row.entry.places.now) }
{
    let from = part(row, 5);
    if from.is_empty() {
        return false;
    }
    let to = part(row, 6);
    if to.is_empty() {
        return periods::period_holds(day_of(from), false, 0, d);
    }
    periods::period_holds(day_of(from), true, day_of(to), d)
}

// inner: the value of the mark of a time code that has a type
pub fn mark_of(row: CutRecord) -> u64
    requires { Kinded time_codes_file row.bytes.now row.places.now × (meets time_codes_file (texts time_codes_file row.bytes.now row.places.now) ≡ true) × (type_of (texts time_codes_file row.bytes.now row.places.now) ≡ 0 → ⊥) }
    ensures { result ≡ value (mark (texts time_codes_file row.entry.bytes.now row.entry.places.now)) }
{
    value_of(part(row, 3))
}

// Two different types out of 5 to 8.
fn two_weeks(seen: &[u64]) -> bool
    requires { Flags seen.now }
    ensures { (codes : List Fields) → Seen codes seen.now → result ≡ two_weeks codes }
{
    seen[5] + seen[6] + seen[7] + seen[8] > 1
}

// Another type beside 3.
fn beside_three(seen: &[u64]) -> bool
    requires { Flags seen.now }
    ensures { (codes : List Fields) → Seen codes seen.now → result ≡ beside_three codes }
{
    seen[1] + seen[2] + seen[4] + seen[5] + seen[6] + seen[7] + seen[8] > 0
}

// Type 1 with 7 or 8.
fn one_with_weeks(seen: &[u64]) -> bool
    requires { Flags seen.now }
    ensures { (codes : List Fields) → Seen codes seen.now → result ≡ one_with_weeks codes }
{
    seen[1] != 0 && seen[7] + seen[8] > 0
}

// inner: whether a trip isn't refused with 10; `differ` says that its marks differ, and `dated` that one of its signs is a day sign
pub fn days_fit(seen: &[u64], differ: bool, dated: bool) -> bool
    requires { Flags seen.now }
    ensures { (day : List ℕ) (codes : List Fields) → Seen codes seen.now → differ ≡ two_marks codes → dated ≡ has_day_sign day → result ≡ days_fit day codes }
{
    !differ
        && !two_weeks(seen)
        && !one_with_weeks(seen)
        && (seen[3] == 0 || !beside_three(seen) && !dated)
}

// What a type that a trip may have asks of day d: its week, and a period that holds d. `there` is 0 if the trip has none of that type, and `held` is 0
// if a period is asked for and none holds d.
fn type_allows(t: u64, d: u64, there: u64, held: u64) -> bool
    requires { d ≤ 73048 }
    ensures { result ≡ pick (eqb there 0) true (both (parity_fits t d) (not (eqb held 0))) }
{
    there == 0 || periods::parity_fits(t, d) && held != 0
}

// What the weeks of 5 to 8 ask of day d.
fn weeks_allow(seen: &[u64], held: &[u64], d: u64) -> bool
    requires { Flags seen.now × Flags held.now × (d ≤ 73048) }
    ensures { (codes : List Fields) → Seen codes seen.now → Held d codes held.now → result ≡ weeks_allow codes d }
{
    type_allows(5, d, seen[5], 1)
        && type_allows(6, d, seen[6], 1)
        && type_allows(7, d, seen[7], held[7])
        && type_allows(8, d, seen[8], held[8])
}

// inner: whether a trip's time codes allow day d; `allowed` says whether its day signs do
pub fn codes_allow(seen: &[u64], held: &[u64], d: u64, allowed: bool) -> bool
    requires { Flags seen.now × Flags held.now × (d ≤ 73048) }
    ensures { (day holidays : List ℕ) (codes : List Fields) → Seen codes seen.now → Held d codes held.now → allowed ≡ signs_allow day d holidays → result ≡ codes_allow day codes d holidays }
{
    if seen[3] == 1 {
        return held[3] == 1;
    }
    if held[4] == 1 {
        return false;
    }
    held[2] == 1 || allowed && type_allows(1, d, seen[1], held[1]) && weeks_allow(seen, held, d)
}

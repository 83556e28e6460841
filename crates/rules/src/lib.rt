// Document 01, "Rules inside one record (refusal 6)": whether a record that was cut, all of whose fields are of their kinds, meets the
// rules of its file. Fields count from 1, and texts from 0: field 7 is text 6.
#![tactic(auto)]

ghost use Rattle.std.specs.Prelude.{◌≡◌};
ghost use Rattle.field.specs.Names.{stops_file, firms_file, lines_file, trip_stops_file, time_codes_file, alternatives_file, first_carrier_code, carrier_codes};
ghost use Rattle.field.specs.Rules.{stop_rule, firm_rule, line_rule, time_code_rule, any_given, carrier_rule, trip_stop_rule, meets};
ghost use Rattle.rules.specs.Texts.{texts, Kinded};

use dated::{closes_in_order, dates_fit, in_order, mark_fits};
use stated::{district_given, kilometres_fit, name_given, times_fit};
use walk::{CutRecord, part};

// Zastavky: the district and the state.
#[tactic(auto, using(crate::proofs::KindLaws::text_at), unfolding(field::specs::Rules::stop_rule, file::specs::Files::fields_of, file::specs::Files::field_counts))]
fn stop_rule(row: CutRecord) -> bool
    requires { Kinded stops_file row.bytes.now row.places.now }
    ensures { result ≡ stop_rule (texts stops_file row.entry.bytes.now row.entry.places.now) }
{
    district_given(part(row, 4), part(row, 5))
}

// Dopravci: the firm's kind and the person's name.
#[tactic(auto, using(crate::proofs::KindLaws::text_at), unfolding(field::specs::Rules::firm_rule, file::specs::Files::fields_of, file::specs::Files::field_counts))]
fn firm_rule(row: CutRecord) -> bool
    requires { Kinded firms_file row.bytes.now row.places.now }
    ensures { result ≡ firm_rule (texts firms_file row.entry.bytes.now row.entry.places.now) }
{
    name_given(part(row, 3), part(row, 4))
}

// Linky: the licence's dates, and the timetable's.
#[tactic(auto, using(crate::proofs::KindLaws::text_at, crate::proofs::KindLaws::maybe_date, crate::proofs::KindLaws::sure_date), unfolding(field::specs::Rules::line_rule, field::specs::Kinds::kind_of, field::specs::Kinds::kinds, field::specs::Kinds::linky, file::specs::Files::fields_of, file::specs::Files::field_counts))]
fn line_rule(row: CutRecord) -> bool
    requires { Kinded lines_file row.bytes.now row.places.now }
    ensures { result ≡ line_rule (texts lines_file row.entry.bytes.now row.entry.places.now) }
{
    in_order(part(row, 6), part(row, 7)) && in_order(part(row, 8), part(row, 9))
}

// Zasspoje: kilometres, arrival and departure.
#[tactic(auto, using(crate::proofs::KindLaws::text_at), unfolding(field::specs::Rules::trip_stop_rule, file::specs::Files::fields_of, file::specs::Files::field_counts))]
fn trip_stop_rule(row: CutRecord) -> bool
    requires { Kinded trip_stops_file row.bytes.now row.places.now }
    ensures { result ≡ trip_stop_rule (texts trip_stops_file row.entry.bytes.now row.entry.places.now) }
{
    let arrival = part(row, 8);
    let departure = part(row, 9);
    times_fit(arrival, departure) && kilometres_fit(part(row, 7), arrival, departure)
}

// Caskody: the mark, the type and the dates.
#[tactic(auto, using(crate::proofs::KindLaws::text_at, crate::proofs::KindLaws::maybe_date), unfolding(field::specs::Rules::time_code_rule, field::specs::Rules::mark_rule, field::specs::Kinds::kind_of, field::specs::Kinds::kinds, field::specs::Kinds::caskody, file::specs::Files::fields_of, file::specs::Files::field_counts))]
fn time_code_rule(row: CutRecord) -> bool
    requires { Kinded time_codes_file row.bytes.now row.places.now }
    ensures { result ≡ time_code_rule (texts time_codes_file row.entry.bytes.now row.entry.places.now) }
{
    let kind = part(row, 4);
    let from = part(row, 5);
    let to = part(row, 6);
    closes_in_order(from, to) && mark_fits(kind, part(row, 3)) && dates_fit(kind, from, to)
}

// Altdop: one of the six codes is given.
#[tactic(auto, using(crate::proofs::KindLaws::text_at), unfolding(file::specs::Files::fields_of, file::specs::Files::field_counts))]
fn has_code(row: CutRecord) -> bool
    requires { Kinded alternatives_file row.bytes.now row.places.now }
    ensures { result ≡ any_given carrier_codes first_carrier_code (texts alternatives_file row.entry.bytes.now row.entry.places.now) }
{
    for i in 3..9 {
        if !part(row, i).is_empty() {
            return true;
        }
    }
    false
}

// Altdop: the dates, and one of code, type, from-date.
#[tactic(auto, using(crate::proofs::KindLaws::text_at, crate::proofs::KindLaws::maybe_date), unfolding(field::specs::Rules::carrier_rule, field::specs::Kinds::kind_of, field::specs::Kinds::kinds, field::specs::Kinds::altdop, file::specs::Files::fields_of, file::specs::Files::field_counts))]
fn carrier_rule(row: CutRecord) -> bool
    requires { Kinded alternatives_file row.bytes.now row.places.now }
    ensures { result ≡ carrier_rule (texts alternatives_file row.entry.bytes.now row.entry.places.now) }
{
    let from = part(row, 11);
    closes_in_order(from, part(row, 12))
        && (has_code(row) || !part(row, 9).is_empty() || !from.is_empty())
}

// inner: the record meets the rules of its file; a file with no rules has records that all do
#[tactic(auto, unfolding(field::specs::Rules::meets))]
pub fn meets_rules(file: u64, row: CutRecord) -> bool
    requires { Kinded file row.bytes.now row.places.now }
    ensures { result ≡ meets file (texts file row.entry.bytes.now row.entry.places.now) }
{
    match file {
        2 => stop_rule(row),
        4 => firm_rule(row),
        5 => line_rule(row),
        8 => trip_stop_rule(row),
        10 => time_code_rule(row),
        11 => carrier_rule(row),
        _ => true,
    }
}

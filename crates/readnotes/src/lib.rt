// The readers of Udaje, Caskody, Altdop and Mistenky: what is noted of lines and trips. Each knows the kinds of its file and reads a record as
// `read_any` does.
#![tactic(auto)]

ghost use Rattle.std.specs.Prelude.{◌≡◌, ◌≤◌, length, IfSome};
ghost use Rattle.field.specs.Kinds.{kind_of};
ghost use Rattle.field.specs.declared.Kind.{Kind};
ghost use Rattle.onward.specs.Onward.{Due, LineFirst};
ghost use Rattle.readany.specs.Reads.{ReadTo};

use field::Kind;
use onward::{codes_on, line_and_number, maybe_on, number_on, text_on};
use readany::line_end;

// inner: reads a record of Udaje or of Mistenky: a line, a number and a text
#[tactic(auto, using(readany::proofs::PlaceLaws::due_read))]
pub fn read_note(file: u64, s: &[u8], start: usize, places: &mut [usize; 14]) -> Option<usize>
    requires { (start ≤ length s.now) × LineFirst file × (kind_of file 3 ≡ Kind.Text 1 254) }
    ensures { IfSome result (λ next. ReadTo file 3 s.now start places.new next) }
{
    let at = line_and_number(file, 3, s, start, places)?;
    let at = text_on(file, 2, 3, s, start, at, 1, 254, places)?;
    line_end(s, at)
}

// Reads what is behind the first four fields of a record of Caskody, due at this place.
#[tactic(auto, using(readany::proofs::PlaceLaws::due_read), unfolding(field::specs::Kinds::kind_of, field::specs::Kinds::kinds, field::specs::Kinds::admits, field::specs::Kinds::caskody))]
fn caskody_rest(s: &[u8], start: usize, from: usize, places: &mut [usize; 14]) -> Option<usize>
    requires { Due 10 8 s.now start places.old 4 from }
    ensures { IfSome result (λ next. ReadTo 10 8 s.now start places.new next) }
{
    let at = maybe_on(10, 4, 8, s, start, from, Kind::CodeType, places)?;
    let at = maybe_on(10, 5, 8, s, start, at, Kind::MaybeDate, places)?;
    let at = maybe_on(10, 6, 8, s, start, at, Kind::MaybeDate, places)?;
    let at = text_on(10, 7, 8, s, start, at, 0, 254, places)?;
    line_end(s, at)
}

// inner: reads a record of Caskody
#[tactic(auto, using(crate::proofs::FieldLaws::first_10), unfolding(field::specs::Kinds::kind_of, field::specs::Kinds::kinds, field::specs::Kinds::admits, field::specs::Kinds::caskody))]
pub fn read_caskody(s: &[u8], start: usize, places: &mut [usize; 14]) -> Option<usize>
    requires { start ≤ length s.now }
    ensures { IfSome result (λ next. ReadTo 10 8 s.now start places.new next) }
{
    let at = line_and_number(10, 8, s, start, places)?;
    let at = number_on(10, 2, 8, s, start, at, 1, 9, places)?;
    let at = text_on(10, 3, 8, s, start, at, 1, 2, places)?;
    caskody_rest(s, start, at, places)
}

// Reads what is behind the first ten fields of a record of Altdop, due at this place.
#[tactic(auto, using(readany::proofs::PlaceLaws::due_read), unfolding(field::specs::Kinds::kind_of, field::specs::Kinds::kinds, field::specs::Kinds::admits, field::specs::Kinds::altdop))]
fn altdop_rest(s: &[u8], start: usize, from: usize, places: &mut [usize; 14]) -> Option<usize>
    requires { Due 11 13 s.now start places.old 10 from }
    ensures { IfSome result (λ next. ReadTo 11 13 s.now start places.new next) }
{
    let at = text_on(11, 10, 13, s, start, from, 0, 254, places)?;
    let at = maybe_on(11, 11, 13, s, start, at, Kind::MaybeDate, places)?;
    let at = maybe_on(11, 12, 13, s, start, at, Kind::MaybeDate, places)?;
    line_end(s, at)
}

// inner: reads a record of Altdop
#[tactic(auto, using(crate::proofs::FieldLaws::first_11, crate::proofs::FieldLaws::codes_11), unfolding(field::specs::Kinds::kind_of, field::specs::Kinds::kinds, field::specs::Kinds::admits, field::specs::Kinds::altdop))]
pub fn read_altdop(s: &[u8], start: usize, places: &mut [usize; 14]) -> Option<usize>
    requires { start ≤ length s.now }
    ensures { IfSome result (λ next. ReadTo 11 13 s.now start places.new next) }
{
    let at = line_and_number(11, 13, s, start, places)?;
    let at = number_on(11, 2, 13, s, start, at, 8, 8, places)?;
    let at = codes_on(11, 3, 9, 13, s, start, at, places)?;
    let at = maybe_on(11, 9, 13, s, start, at, Kind::WeekType, places)?;
    altdop_rest(s, start, at, places)
}

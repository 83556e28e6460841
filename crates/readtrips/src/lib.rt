// The readers of Zastavky, Spoje, Zaslinky and Zasspoje: of stops, trips, and where and when these call. Each knows the kinds of its file and reads a record
// as `read_any` does.
#![tactic(auto)]

ghost use Rattle.std.specs.Prelude.{◌≡◌, ◌≤◌, length, IfSome};
ghost use Rattle.onward.specs.Onward.{Due};
ghost use Rattle.readany.specs.Reads.{ReadTo};

use onward::{begin, codes_on, line_and_number, maybe_number_on, number_on, text_on, time_on};
use readany::line_end;

// Reads what is behind the first four fields of a record of Zastavky, due at this place.
#[tactic(auto, using(crate::proofs::FieldLaws::codes_2, readany::proofs::PlaceLaws::due_read), unfolding(field::specs::Kinds::kind_of, field::specs::Kinds::kinds, field::specs::Kinds::zastavky))]
fn zastavky_rest(s: &[u8], start: usize, from: usize, places: &mut [usize; 14]) -> Option<usize>
    requires { Due 2 12 s.now start places.old 4 from }
    ensures { IfSome result (λ next. ReadTo 2 12 s.now start places.new next) }
{
    let at = text_on(2, 4, 12, s, start, from, 0, 3, places)?;
    let at = text_on(2, 5, 12, s, start, at, 1, 3, places)?;
    let at = codes_on(2, 6, 12, 12, s, start, at, places)?;
    line_end(s, at)
}

// inner: reads a record of Zastavky
#[tactic(auto, unfolding(field::specs::Kinds::kind_of, field::specs::Kinds::kinds, field::specs::Kinds::zastavky))]
pub fn read_zastavky(s: &[u8], start: usize, places: &mut [usize; 14]) -> Option<usize>
    requires { start ≤ length s.now }
    ensures { IfSome result (λ next. ReadTo 2 12 s.now start places.new next) }
{
    let at = begin(2, 12, s, start, places);
    let at = number_on(2, 0, 12, s, start, at, 1, 9, places)?;
    let at = text_on(2, 1, 12, s, start, at, 1, 48, places)?;
    let at = text_on(2, 2, 12, s, start, at, 0, 48, places)?;
    let at = text_on(2, 3, 12, s, start, at, 0, 48, places)?;
    zastavky_rest(s, start, at, places)
}

// inner: the same, of Spoje
#[tactic(auto, using(crate::proofs::FieldLaws::first_6, crate::proofs::FieldLaws::codes_6, readany::proofs::PlaceLaws::due_read), unfolding(field::specs::Kinds::kind_of, field::specs::Kinds::kinds, field::specs::Kinds::spoje))]
pub fn read_spoje(s: &[u8], start: usize, places: &mut [usize; 14]) -> Option<usize>
    requires { start ≤ length s.now }
    ensures { IfSome result (λ next. ReadTo 6 12 s.now start places.new next) }
{
    let at = line_and_number(6, 12, s, start, places)?;
    let at = codes_on(6, 2, 12, 12, s, start, at, places)?;
    line_end(s, at)
}

// inner: the same, of Zaslinky
#[tactic(auto, using(crate::proofs::FieldLaws::first_7, crate::proofs::FieldLaws::codes_7, readany::proofs::PlaceLaws::due_read), unfolding(field::specs::Kinds::kind_of, field::specs::Kinds::kinds, field::specs::Kinds::zaslinky))]
pub fn read_zaslinky(s: &[u8], start: usize, places: &mut [usize; 14]) -> Option<usize>
    requires { start ≤ length s.now }
    ensures { IfSome result (λ next. ReadTo 7 7 s.now start places.new next) }
{
    let at = line_and_number(7, 7, s, start, places)?;
    let at = text_on(7, 2, 7, s, start, at, 0, 254, places)?;
    let at = number_on(7, 3, 7, s, start, at, 1, 9, places)?;
    let at = codes_on(7, 4, 7, 7, s, start, at, places)?;
    line_end(s, at)
}

// Reads what is behind the first five fields of a record of Zasspoje, due at this place.
#[tactic(auto, using(crate::proofs::FieldLaws::codes_8, readany::proofs::PlaceLaws::due_read), unfolding(field::specs::Kinds::kind_of, field::specs::Kinds::kinds, field::specs::Kinds::zasspoje))]
fn zasspoje_rest(s: &[u8], start: usize, from: usize, places: &mut [usize; 14]) -> Option<usize>
    requires { Due 8 10 s.now start places.old 5 from }
    ensures { IfSome result (λ next. ReadTo 8 10 s.now start places.new next) }
{
    let at = codes_on(8, 5, 7, 10, s, start, from, places)?;
    let at = maybe_number_on(8, 7, 10, s, start, at, 1, 9, places)?;
    let at = time_on(8, 8, 10, s, start, at, places)?;
    let at = time_on(8, 9, 10, s, start, at, places)?;
    line_end(s, at)
}

// inner: reads a record of Zasspoje
#[tactic(auto, using(crate::proofs::FieldLaws::first_8), unfolding(field::specs::Kinds::kind_of, field::specs::Kinds::kinds, field::specs::Kinds::zasspoje))]
pub fn read_zasspoje(s: &[u8], start: usize, places: &mut [usize; 14]) -> Option<usize>
    requires { start ≤ length s.now }
    ensures { IfSome result (λ next. ReadTo 8 10 s.now start places.new next) }
{
    let at = line_and_number(8, 10, s, start, places)?;
    let at = number_on(8, 2, 10, s, start, at, 1, 9, places)?;
    let at = number_on(8, 3, 10, s, start, at, 1, 9, places)?;
    let at = text_on(8, 4, 10, s, start, at, 0, 48, places)?;
    zasspoje_rest(s, start, at, places)
}

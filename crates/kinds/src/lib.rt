// The kind of every field: document 01, "Fields", and the tables of 000. A match on the file's number calls a match on the field's
// number, one function for each file, and one for both Udaje and Mistenky. All of it is inner: what each function means is its definition in `field`, specs/Kinds.antt.
#![tactic(auto)]

ghost use Rattle.std.specs.Prelude.{◌≡◌, ◌∷◌, get_or};
ghost use Rattle.field.specs.Kinds.{zastavky, pevnykod, dopravci, linky, spoje, zaslinky, zasspoje, udaje, caskody, altdop, altlinky, kind_of};

use field::Kind;

// Number: 1-9 digits. Code number: 1-5, or none given. Line: 6. IČO: 8.
const NUMBER: Kind = Kind::Digits(1, 9);

const CODE: Kind = Kind::MaybeDigits(1, 5);

const LINE: Kind = Kind::Digits(6, 6);

const FIRM_NUMBER: Kind = Kind::Digits(8, 8);

#[tactic(auto, unfolding(field::specs::Kinds::zastavky))]
fn zastavky_kind(f: u64) -> Kind
    ensures { result ≡ get_or (Kind.None ∷ zastavky) f Kind.None }
{
    match f {
        1 => NUMBER,
        2 => Kind::Text(1, 48),
        3 | 4 => Kind::Text(0, 48),
        5 => Kind::Text(0, 3),
        6 => Kind::Text(1, 3),
        7..=12 => CODE,
        _ => Kind::None,
    }
}

#[tactic(auto, unfolding(field::specs::Kinds::pevnykod))]
fn pevnykod_kind(f: u64) -> Kind
    ensures { result ≡ get_or (Kind.None ∷ pevnykod) f Kind.None }
{
    match f {
        1 => Kind::Digits(1, 5),
        2 => Kind::Sign,
        3 => Kind::Text(0, 254),
        _ => Kind::None,
    }
}

#[tactic(auto, unfolding(field::specs::Kinds::dopravci))]
fn dopravci_kind(f: u64) -> Kind
    ensures { result ≡ get_or (Kind.None ∷ dopravci) f Kind.None }
{
    match f {
        1 => FIRM_NUMBER,
        2 => Kind::Text(0, 14),
        3 => Kind::Text(1, 254),
        4 => Kind::Firm,
        5 => Kind::Text(0, 254),
        6 => Kind::Text(1, 254),
        7 => Kind::Text(1, 48),
        8..=11 => Kind::Text(0, 48),
        _ => Kind::None,
    }
}

#[tactic(auto, unfolding(field::specs::Kinds::linky))]
fn linky_kind(f: u64) -> Kind
    ensures { result ≡ get_or (Kind.None ∷ linky) f Kind.None }
{
    match f {
        1 => LINE,
        2 => Kind::Text(1, 254),
        3 => FIRM_NUMBER,
        4 => Kind::LineType,
        5 => Kind::MaybeDigits(3, 3),
        6 => Kind::Text(0, 48),
        7 | 8 => Kind::MaybeDate,
        9 | 10 => Kind::Date,
        _ => Kind::None,
    }
}

#[tactic(auto, unfolding(field::specs::Kinds::spoje))]
fn spoje_kind(f: u64) -> Kind
    ensures { result ≡ get_or (Kind.None ∷ spoje) f Kind.None }
{
    match f {
        1 => LINE,
        2 => NUMBER,
        3..=12 => CODE,
        _ => Kind::None,
    }
}

#[tactic(auto, unfolding(field::specs::Kinds::zaslinky))]
fn zaslinky_kind(f: u64) -> Kind
    ensures { result ≡ get_or (Kind.None ∷ zaslinky) f Kind.None }
{
    match f {
        1 => LINE,
        2 => NUMBER,
        3 => Kind::Text(0, 254),
        4 => NUMBER,
        5..=7 => CODE,
        _ => Kind::None,
    }
}

#[tactic(auto, unfolding(field::specs::Kinds::zasspoje))]
fn zasspoje_kind(f: u64) -> Kind
    ensures { result ≡ get_or (Kind.None ∷ zasspoje) f Kind.None }
{
    match f {
        1 => LINE,
        2..=4 => NUMBER,
        5 => Kind::Text(0, 48),
        6 | 7 => CODE,
        8 => Kind::MaybeDigits(1, 9),
        9 | 10 => Kind::Time,
        _ => Kind::None,
    }
}

// Udaje and Mistenky have the same fields.
#[tactic(auto, unfolding(field::specs::Kinds::udaje))]
fn udaje_kind(f: u64) -> Kind
    ensures { result ≡ get_or (Kind.None ∷ udaje) f Kind.None }
{
    match f {
        1 => LINE,
        2 => NUMBER,
        3 => Kind::Text(1, 254),
        _ => Kind::None,
    }
}

#[tactic(auto, unfolding(field::specs::Kinds::caskody))]
fn caskody_kind(f: u64) -> Kind
    ensures { result ≡ get_or (Kind.None ∷ caskody) f Kind.None }
{
    match f {
        1 => LINE,
        2 | 3 => NUMBER,
        4 => Kind::Text(1, 2),
        5 => Kind::CodeType,
        6 | 7 => Kind::MaybeDate,
        8 => Kind::Text(0, 254),
        _ => Kind::None,
    }
}

#[tactic(auto, unfolding(field::specs::Kinds::altdop))]
fn altdop_kind(f: u64) -> Kind
    ensures { result ≡ get_or (Kind.None ∷ altdop) f Kind.None }
{
    match f {
        1 => LINE,
        2 => NUMBER,
        3 => FIRM_NUMBER,
        4..=9 => CODE,
        10 => Kind::WeekType,
        11 => Kind::Text(0, 254),
        12 | 13 => Kind::MaybeDate,
        _ => Kind::None,
    }
}

#[tactic(auto, unfolding(field::specs::Kinds::altlinky))]
fn altlinky_kind(f: u64) -> Kind
    ensures { result ≡ get_or (Kind.None ∷ altlinky) f Kind.None }
{
    match f {
        1 => LINE,
        2 => Kind::Text(1, 20),
        3 => Kind::Text(1, 3),
        _ => Kind::None,
    }
}

// inner: the kind of field f, from 1, of a file
#[tactic(auto, unfolding(field::specs::Kinds::kind_of, field::specs::Kinds::kinds, field::specs::Kinds::udaje, field::specs::Kinds::mistenky))]
pub fn kind_of(file: u64, f: u64) -> Kind
    ensures { result ≡ kind_of file f }
{
    match file {
        2 => zastavky_kind(f),
        3 => pevnykod_kind(f),
        4 => dopravci_kind(f),
        5 => linky_kind(f),
        6 => spoje_kind(f),
        7 => zaslinky_kind(f),
        8 => zasspoje_kind(f),
        9 | 13 => udaje_kind(f),
        10 => caskody_kind(f),
        11 => altdop_kind(f),
        12 => altlinky_kind(f),
        _ => Kind::None,
    }
}

// The link of a field as one number, its tag: what it asks for, and by which numbers. Fields with one tag ask for the same, so what was found for one
// of them holds for all; `recall` remembers it by that number.
#![tactic(auto)]

ghost use Rattle.std.specs.Prelude.{◌≡◌, ◌+◌, ◌≤◌, ◌<◌, length};
ghost use Rattle.file.specs.Files.{fields_of};
ghost use Rattle.field.specs.Names.{field};
ghost use Rattle.field.specs.Values.{value};
ghost use Rattle.rules.specs.Texts.{texts, Kinded};
ghost use Rattle.keys.specs.Keys.{none};
ghost use Rattle.link.specs.Links.{link_of, links_in};
ghost use Rattle.link.specs.Numeric.{NumberAt, CodeAt};
ghost use Rattle.tags.specs.Tags.{tag, Tagged, FreeBefore};

use amiss::number_of;
use field::value_of;
use link::Link;
use targets::link_of;
use walk::{CutRecord, part};

// A kind and two numbers as one.
fn tag_of(kind: u64, a: u64, x: u64) -> u64
    requires { (kind ≤ 9) × (a < none) × (x < none) }
    ensures { result ≡ tag kind a x }
{
    kind * 1000000000000000000 + a * 1000000000 + x
}

// The tag of a link by the number in field f, and by `a`.
fn number_tag(kind: u64, a: u64, file: u64, row: CutRecord, f: u64) -> u64
    requires { (kind ≤ 9) × (a < none) × Kinded file row.bytes.now row.places.now × NumberAt file f }
    ensures { (result ≡ tag kind a (value (field f (texts file row.entry.bytes.now row.entry.places.now)))) × (value (field f (texts file row.entry.bytes.now row.entry.places.now)) < none) }
{
    tag_of(kind, a, number_of(file, row, f))
}

// That of Mistenky's trip: 0 links to nothing.
fn seat_tag(a: u64, file: u64, row: CutRecord, f: u64) -> u64
    requires { (a < none) × (a ≡ value (field 1 (texts file row.bytes.now row.places.now))) × Kinded file row.bytes.now row.places.now × NumberAt file f × (f ≡ 2) × (link_of file f ≡ Link.TripOrZero) }
    ensures { Tagged file f (texts file row.entry.bytes.now row.entry.places.now) result }
{
    let x = number_of(file, row, f);
    if x == 0 {
        return 0;
    }
    tag_of(6, a, x)
}

// That of Zasspoje's second code: with its first, if that is given.
fn second_tag(x: u64, row: CutRecord) -> u64
    requires { (x < none) × (x ≡ value (field 7 (texts 8 row.bytes.now row.places.now))) × (length (field 7 (texts 8 row.bytes.now row.places.now)) ≡ 0 → ⊥) × Kinded 8 row.bytes.now row.places.now }
    ensures { Tagged 8 7 (texts 8 row.entry.bytes.now row.entry.places.now) result }
{
    let first = part(row, 5);
    if first.is_empty() {
        return tag_of(3, 8, x);
    }
    tag_of(8, value_of(first), x)
}

// That of a code.
fn code_tag(file: u64, row: CutRecord, f: u64) -> u64
    requires { (file ≤ 13) × Kinded file row.bytes.now row.places.now × CodeAt file f × (link_of file f ≡ Link.Code) × (length (field f (texts file row.bytes.now row.places.now)) ≡ 0 → ⊥) }
    ensures { Tagged file f (texts file row.entry.bytes.now row.entry.places.now) result }
{
    let x = value_of(part(row, (f - 1) as usize));
    if file != 8 || f != 7 {
        return tag_of(3, file, x);
    }
    second_tag(x, row)
}

// The tag of what field f, which isn't empty, links to, where `a` is the number in field 1; 0 only if nothing is wrong with it.
fn link_tag(file: u64, row: CutRecord, f: u64, a: u64) -> u64
    requires { (file ≤ 13) × Kinded file row.bytes.now row.places.now × (a < none) × (a ≡ value (field 1 (texts file row.bytes.now row.places.now))) × (length (field f (texts file row.bytes.now row.places.now)) ≡ 0 → ⊥) }
    ensures { Tagged file f (texts file row.entry.bytes.now row.entry.places.now) result }
{
    match link_of(file, f) {
        Link::Free => 0,
        Link::Line => number_tag(5, 0, file, row, f),
        Link::Stop => number_tag(2, 0, file, row, f),
        Link::Carrier => number_tag(4, 0, file, row, f),
        Link::Trip => number_tag(6, a, file, row, f),
        Link::TripOrZero => seat_tag(a, file, row, f),
        Link::LineStop => number_tag(7, a, file, row, f),
        Link::Code => code_tag(file, row, f),
    }
}

// inner: the same, with a look first whether the field is empty, as most codes are: then nothing is wrong with it, whatever it is
pub fn tag_at(file: u64, row: CutRecord, f: u64, a: u64) -> u64
    requires { (file ≤ 13) × Kinded file row.bytes.now row.places.now × (a < none) × (a ≡ value (field 1 (texts file row.bytes.now row.places.now))) × (1 ≤ f) × (f ≤ fields_of file) }
    ensures { Tagged file f (texts file row.entry.bytes.now row.entry.places.now) result }
{
    let text = part(row, (f - 1) as usize);
    if text.is_empty() {
        return 0;
    }
    link_tag(file, row, f, a)
}

// inner: the first field of a file that has a link, or one before it: those that stand before have none
pub fn first_link(file: u64) -> u64
    ensures { (1 ≤ result) × (result ≤ links_in file + 1) × FreeBefore file result }
{
    match file {
        2 => 7,
        5 => 3,
        8 | 10 | 11 => 2,
        _ => 1,
    }
}

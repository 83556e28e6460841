// The links of every field, and the signs that are permitted in each file's codes: document 01's tables as matches on the file's and the
// field's number.
#![tactic(auto)]

ghost use Rattle.std.specs.Prelude.{◌≡◌, ◌∷◌, get_or};
ghost use Rattle.link.specs.Links.{zastavky, linky, spoje, zaslinky, zasspoje, udaje, caskody, altdop, altlinky, mistenky, links_in, link_of};
ghost use Rattle.link.specs.Signs.{is_permitted};

use link::Link;

fn zastavky_link(f: u64) -> Link
    ensures { result ≡ get_or (Link.Free ∷ zastavky) f Link.Free }
{
    match f {
        7..=12 => Link::Code,
        _ => Link::Free,
    }
}

fn linky_link(f: u64) -> Link
    ensures { result ≡ get_or (Link.Free ∷ linky) f Link.Free }
{
    match f {
        3 => Link::Carrier,
        _ => Link::Free,
    }
}

fn spoje_link(f: u64) -> Link
    ensures { result ≡ get_or (Link.Free ∷ spoje) f Link.Free }
{
    match f {
        1 => Link::Line,
        3..=12 => Link::Code,
        _ => Link::Free,
    }
}

fn zaslinky_link(f: u64) -> Link
    ensures { result ≡ get_or (Link.Free ∷ zaslinky) f Link.Free }
{
    match f {
        1 => Link::Line,
        4 => Link::Stop,
        5..=7 => Link::Code,
        _ => Link::Free,
    }
}

fn zasspoje_link(f: u64) -> Link
    ensures { result ≡ get_or (Link.Free ∷ zasspoje) f Link.Free }
{
    match f {
        2 => Link::Trip,
        3 => Link::LineStop,
        4 => Link::Stop,
        6..=7 => Link::Code,
        _ => Link::Free,
    }
}

fn udaje_link(f: u64) -> Link
    ensures { result ≡ get_or (Link.Free ∷ udaje) f Link.Free }
{
    match f {
        1 => Link::Line,
        _ => Link::Free,
    }
}

fn caskody_link(f: u64) -> Link
    ensures { result ≡ get_or (Link.Free ∷ caskody) f Link.Free }
{
    match f {
        2 => Link::Trip,
        _ => Link::Free,
    }
}

fn altdop_link(f: u64) -> Link
    ensures { result ≡ get_or (Link.Free ∷ altdop) f Link.Free }
{
    match f {
        2 => Link::Trip,
        3 => Link::Carrier,
        4..=9 => Link::Code,
        _ => Link::Free,
    }
}

fn altlinky_link(f: u64) -> Link
    ensures { result ≡ get_or (Link.Free ∷ altlinky) f Link.Free }
{
    match f {
        1 => Link::Line,
        _ => Link::Free,
    }
}

fn mistenky_link(f: u64) -> Link
    ensures { result ≡ get_or (Link.Free ∷ mistenky) f Link.Free }
{
    match f {
        1 => Link::Line,
        2 => Link::TripOrZero,
        _ => Link::Free,
    }
}

// inner: the link of field f, from 1, of a file
pub fn link_of(file: u64, f: u64) -> Link
    ensures { result ≡ link_of file f }
{
    match file {
        2 => zastavky_link(f),
        5 => linky_link(f),
        6 => spoje_link(f),
        7 => zaslinky_link(f),
        8 => zasspoje_link(f),
        9 => udaje_link(f),
        10 => caskody_link(f),
        11 => altdop_link(f),
        12 => altlinky_link(f),
        13 => mistenky_link(f),
        _ => Link::Free,
    }
}

// inner: the last field of a file that has a link; 0 where none has
pub fn links_in(file: u64) -> u64
    ensures { result ≡ links_in file }
{
    match file {
        2 => 12,
        5 => 3,
        6 => 12,
        7 => 7,
        8 => 7,
        9 => 1,
        10 => 2,
        11 => 9,
        12 => 1,
        13 => 2,
        _ => 0,
    }
}

// inner: whether a sign may stand in this file's codes
pub fn is_permitted(file: u64, sign: u8) -> bool
    ensures { result ≡ is_permitted file sign }
{
    match file {
        2 => b"@%Wwx~}v".contains(&sign),
        6 => b"X+1234567R#@%I{[Os".contains(&sign),
        7 => b"()x\xA7$".contains(&sign),
        8 => b"()x\xA7".contains(&sign),
        11 => b"X+1234567".contains(&sign),
        _ => false,
    }
}

// The thirteen files in one buffer, one behind the other: document 01, "The check program and the desk host".
#![tactic(auto)]

ghost use Rattle.std.specs.Prelude.{◌≡◌, true, ◌≤◌, length};
ghost use Rattle.thirteen.specs.Lent.{batch_of};
ghost use Rattle.buffer.specs.Buffer.{Stand, part_of, parts_of};

use filenames::read_numbered;
use std::rt::Files;

// inner: reads all files, one behind the other; `ends[file]` is the place after each. Whether each was read.
pub fn gather(rt: &(impl Files + Eprint), buf: &mut [u8], ends: &mut [usize; 14]) -> bool
    requires { 14 ≤ length ends.old }
    ensures { result ≡ true → Stand 13 (length buf.old) ends.new }
{
    let mut at = 0;
    ends[0] = at;
    for file in 1..14 {
        let Some(next) = read_numbered(rt, file, buf, at) else {
            return false;
        };
        at = next;
        ends[file] = at;
    }
    true
}

// The bytes of a file.
fn part<'a>(buf: &'a [u8], ends: &[usize; 14], file: usize) -> &'a [u8]
    requires { Stand 13 (length buf.now) ends.now × (1 ≤ file) × (file ≤ 13) }
    ensures { result.now ≡ part_of buf.now ends.now file }
{
    &buf[ends[file - 1]..ends[file]]
}

// inner: the thirteen files
pub fn parts<'a>(buf: &'a [u8], ends: &[usize; 14]) -> thirteen::Files<'a>
    requires { Stand 13 (length buf.now) ends.now }
    ensures { batch_of result ≡ parts_of buf.now ends.now }
{
    thirteen::Files {
        version: part(buf, ends, 1),
        stops: part(buf, ends, 2),
        codes: part(buf, ends, 3),
        carriers: part(buf, ends, 4),
        lines: part(buf, ends, 5),
        trips: part(buf, ends, 6),
        line_stops: part(buf, ends, 7),
        trip_stops: part(buf, ends, 8),
        notes: part(buf, ends, 9),
        time_codes: part(buf, ends, 10),
        other_carriers: part(buf, ends, 11),
        other_lines: part(buf, ends, 12),
        seats: part(buf, ends, 13),
    }
}

// Each of the thirteen files, read by its name: document 01, "The check program and the desk host".
#![tactic(auto)]

ghost use Rattle.std.specs.Prelude.{◌≡◌, ◌≤◌, length, take};
ghost use Rattle.loading.specs.Reached.{Reached};

use loading::read_file;
use std::rt::Files;

// inner: reads the file of this number, by its name, as `read_file` does
pub fn read_numbered(
    rt: &(impl Files + Eprint),
    file: usize,
    buf: &mut [u8],
    at: usize,
) -> Option<usize>
    requires { at ≤ length buf.old }
    ensures { Reached at (length buf.old) result × (take at buf.new ≡ take at buf.old) }
{
    match file {
        1 => read_file(rt, b"VerzeJDF.txt", buf, at),
        2 => read_file(rt, b"Zastavky.txt", buf, at),
        3 => read_file(rt, b"Pevnykod.txt", buf, at),
        4 => read_file(rt, b"Dopravci.txt", buf, at),
        5 => read_file(rt, b"Linky.txt", buf, at),
        6 => read_file(rt, b"Spoje.txt", buf, at),
        7 => read_file(rt, b"Zaslinky.txt", buf, at),
        8 => read_file(rt, b"Zasspoje.txt", buf, at),
        9 => read_file(rt, b"Udaje.txt", buf, at),
        10 => read_file(rt, b"Caskody.txt", buf, at),
        11 => read_file(rt, b"Altdop.txt", buf, at),
        12 => read_file(rt, b"Altlinky.txt", buf, at),
        _ => read_file(rt, b"Mistenky.txt", buf, at),
    }
}

// The check program: document 01, "The check program and the desk host". It reads the thirteen files from its working directory and writes one
// line. A file that is missing counts as empty. One that is there and can't be read ends the program with a message and no line: files that
// were read in part are never judged.
#![tactic(auto)]

ghost use Rattle.std.specs.Prelude.{◌≡◌, ◌≤◌, length};
ghost use Rattle.laws.specs.Splice.{splice};
ghost use Rattle.buffer.specs.Buffer.{Stand, parts_of};
ghost use Rattle.wording.specs.Line.{program_line};

use buffer::{gather, parts};
use std::io;
use together::MOST;
use wording::program_line;

// One byte more than the files may have together: where it is full there are too many.
const SPACE: usize = MOST + 1;

// The line of what was read.
fn line(buf: &[u8], ends: &[usize; 14], d: &mut [u8]) -> usize
    requires { Stand 13 (length buf.now) ends.now × (134 ≤ length d.old) }
    ensures { (d.new ≡ splice d.old 0 (program_line (parts_of buf.now ends.now))) × (result ≡ length (program_line (parts_of buf.now ends.now))) × (result ≤ 134) }
{
    let files = parts(buf, ends);
    program_line(&files, d)
}

// Reads, judges and writes the line. A file that can't be read is reported by then, and no line follows.
fn main(rt: HostRuntime) -> io::Result<()> {
    let mut space = [0u8; SPACE];
    let mut ends = [0usize; 14];
    if !gather(&rt, &mut space, &mut ends) {
        return Ok(());
    }
    let mut text = [0u8; 134];
    let length = line(&space, &ends, &mut text);
    rt.write_all(&text[..length])
}

// A file of the working directory, read into a buffer behind others: document 01, "The check program and the desk host". One that is missing counts
// as empty. One that is there and can't be read is reported.
#![tactic(auto)]

ghost use Rattle.std.specs.Prelude.{◌≡◌, ◌≤◌, ◌↔◌, length, take, IfOk, IsOk};
ghost use Rattle.std.specs.Str.{IsUtf8};
ghost use Rattle.loading.specs.Reached.{Reached};

use std::fs::{File, symlink_metadata};
use std::io::{Error, ErrorKind, Read};
use std::rt::Files;
use std::{io, str};

// The name as text, which a path is. One that isn't text names no file.
fn path_of(name: &[u8]) -> io::Result<&str>
    ensures same { IfOk result (λ path. path.now ≡ name.now) }
    ensures text { IsOk result ↔ IsUtf8 name.now }
{
    str::from_utf8(name).map_err(|_| Error::from(ErrorKind::InvalidFilename))
}

// Whether the file of a path that could not be opened isn't there. A link to nothing is there.
fn is_missing(rt: &impl Files, path: &str, error: Error) -> bool {
    error.kind() == ErrorKind::NotFound && symlink_metadata(rt, path).is_err()
}

// Reads until the file ends or the buffer is full: the place after what was read. What stands before `from` stays.
fn fill(file: &mut impl Read, buf: &mut [u8], from: usize) -> io::Result<usize>
    requires { from ≤ length buf.old }
    ensures { IfOk result (λ next. (from ≤ next) × (next ≤ length buf.old)) × (take from buf.new ≡ take from buf.old) }
{
    let mut at = from;
    while at < buf.len() {
        let more = file.read(&mut buf[at..])?;
        if more == 0 {
            return Ok(at);
        }
        at += more;
    }
    Ok(at)
}

// The place after the file of this name, read behind the others. One that is missing counts as empty.
fn place_after(rt: &impl Files, name: &[u8], buf: &mut [u8], at: usize) -> io::Result<usize>
    requires { at ≤ length buf.old }
    ensures { IfOk result (λ next. (at ≤ next) × (next ≤ length buf.old)) × (take at buf.new ≡ take at buf.old) }
{
    let path = path_of(name)?;
    match File::open(rt, path) {
        Ok(mut file) => fill(&mut file, buf, at),
        Err(error) if is_missing(rt, path, error) => Ok(at),
        Err(error) => Err(error),
    }
}

// Says of a file that can't be read why. Where that can't be written either, nothing more is to be said.
fn report(rt: &impl Eprint, name: &[u8], error: Error) {
    let _ = eprintln!(rt; "{}: {error}", name.escape_ascii());
}

// inner: reads the file of this name behind the others, and answers the place after it; `None` if it is there and can't be read, which is reported.
// Where the buffer is full there are too many bytes already.
pub fn read_file(
    rt: &(impl Files + Eprint),
    name: &[u8],
    buf: &mut [u8],
    at: usize,
) -> Option<usize>
    requires { at ≤ length buf.old }
    ensures { Reached at (length buf.old) result × (take at buf.new ≡ take at buf.old) }
{
    if at == buf.len() {
        return Some(at);
    }
    match place_after(rt, name, buf, at) {
        Ok(next) => Some(next),
        Err(error) => {
            report(rt, name, error);
            None
        }
    }
}

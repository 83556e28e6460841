// The classes of bytes and the field counts, each a table of its own: document 01, "Bytes of a file" and "The batch".
ghost use Rattle.std.specs.Prelude.{◌≡◌};
ghost use Rattle.file.specs.Bytes.{class_of};
ghost use Rattle.file.specs.Files.{fields_of};

// `.` for a byte with which a text goes on whatever follows; `#` for the quote, which may end a field, and for each byte that no text
// holds. Thirty-two bytes to a row.
static CLASS: [u8; 256] = *b"\
    ################################\
    ..#.............................\
    ................................\
    ...............................#\
    .#.#....#.......#.......#.......\
    ................................\
    ................................\
    ................................";

// inner: the class of a byte.
#[inline]
pub fn class_of(b: u8) -> u8
    ensures { result ≡ class_of b }
{
    CLASS[b as usize]
}

// How many fields a record of each file has, from file 1 on; no file has the number 0.
const FIELDS: [usize; 14] = [0, 1, 12, 3, 11, 10, 12, 7, 10, 3, 8, 13, 3, 3];

// inner: how many fields a record of this file has; 0 where there is no such file.
pub fn fields_of(file: u64) -> usize
    ensures { result ≡ fields_of file }
{
    if file < 14 { FIELDS[file as usize] } else { 0 }
}

// From record to record of a legal file, and the texts of one: document 01, "Bytes of a file". A record is cut once, and nothing is copied.
#![tactic(auto)]

ghost use Rattle.std.specs.Prelude.{◌≡◌, ◌<◌, length};
ghost use Rattle.walk.specs.Walk.{RecordAt, Cuts, Stands, part_of};

use quotes::text_end;

// A record that was cut: the file that it stands in, and where its texts are.
#[derive(Clone, Copy)]
pub struct CutRecord<'a, 'b> {
    pub bytes: &'a [u8],
    pub places: &'b [usize; 14],
}

// Marks where each text of the record that starts at `at` starts, and where one behind the last would; answers where the next record
// starts. A legal file needs no look at what closes a field. The places come as a slice, since the proof has to know how many there are.
fn mark(s: &[u8], at: usize, n: usize, places: &mut [usize]) -> usize
    requires { RecordAt n s.now at × (n < length places.old) }
    ensures { Cuts n s.now at places.old places.new result }
{
    let mut start = at + 1;
    for i in 0..n {
        places[i] = start;
        start = text_end(s, start) + 3;
    }
    places[n] = start;
    start + 1
}

// inner: cuts the record of n texts that starts at `at`, and answers where the next one starts. Text i starts at places[i] and ends at
// places[i + 1] - 3, also the last one; the places above n are left alone.
pub fn cut(s: &[u8], at: usize, n: usize, places: &mut [usize; 14]) -> usize
    requires { RecordAt n s.now at }
    ensures { Cuts n s.now at places.old places.new result }
{
    mark(s, at, n, places)
}

// inner: text i of a record that was cut, a part of its file.
pub fn part<'a>(row: CutRecord<'a, '_>, i: usize) -> &'a [u8]
    requires { Stands row.bytes.now row.places.now i }
    ensures { result.now ≡ part_of row.entry.bytes.now row.entry.places.now i }
{
    let start = row.places[i];
    let end = row.places[i + 1] - 3;
    &row.bytes[start..end]
}

// A record is cut as `walk::cut` cuts it, but for its last text, which is not read: it ends where the line does, and a line's end is looked for eight
// bytes at a time. Last texts are the long ones.
#![tactic(auto)]

ghost use Rattle.std.specs.Prelude.{◌<◌, length};
ghost use Rattle.walk.specs.Walk.{RecordAt, Cuts};

use lines::line_after;
use quotes::text_end;

// Marks where each text starts. The places come as a slice, since the proof has to know how many there are.
fn mark(s: &[u8], at: usize, n: usize, places: &mut [usize]) -> usize
    requires { RecordAt n s.now at × (n < length places.old) }
    ensures { Cuts n s.now at places.old places.new result }
{
    let mut start = at + 1;
    let last = n - 1;
    for i in 0..last {
        places[i] = start;
        start = text_end(s, start) + 3;
    }
    places[last] = start;
    let next = line_after(s, start);
    places[n] = next - 1;
    next
}

// inner: cuts the record of n texts that starts at `at`, and answers where the next one starts; the same promise as `walk::cut`
pub fn cut(s: &[u8], at: usize, n: usize, places: &mut [usize; 14]) -> usize
    requires { RecordAt n s.now at }
    ensures { Cuts n s.now at places.old places.new result }
{
    mark(s, at, n, places)
}

// The parts of the hint of a batch: where the records of each keyed file start, in order of their keys, for the files whose keys don't rise by
// themselves, one file behind the other.
#![tactic(auto)]

ghost use Rattle.std.specs.Prelude.{◌≡◌, ◌+◌, ◌≤◌, length};
ghost use Rattle.laws.specs.Splice.{splice};
ghost use Rattle.file.specs.Files.{fields_of, longest};
ghost use Rattle.file.specs.Records.{records_in};
ghost use Rattle.lines.specs.Index.{starts};
ghost use Rattle.keys.specs.Ranks.{rank_of};
ghost use Rattle.keys.specs.KeyFiles.{KeyFile};
ghost use Rattle.thirteen.specs.Lent.{batch_of};
ghost use Rattle.parts.specs.Parts.{starts_in_order, part_of, hint_of};
ghost use Rattle.parts.specs.Keyed.{KeyedFiles};

use heap::sort;
use lines::line_after;
use ordered::rising;
use tally::count;
use thirteen::{Files, file_of};

// Where the records of a file start, in the file's own order, over the whole list.
fn put_starts(file: u64, s: &[u8], list: &mut [u32])
    requires { KeyFile file s.now × (length s.now ≤ longest) × (length list.old ≡ length (records_in (fields_of file) s.now)) }
    ensures { list.new ≡ starts (fields_of file) (rank_of file) s.now }
{
    let mut n = 0;
    let mut at = 0;
    while at < s.len() {
        list[n] = at as u32;
        at = line_after(s, at);
        n += 1;
    }
}

// The same in order of key and place.
fn put_file(file: u64, s: &[u8], list: &mut [u32])
    requires { KeyFile file s.now × (length s.now ≤ longest) × (length list.old ≡ length (records_in (fields_of file) s.now)) }
    ensures { list.new ≡ starts_in_order file s.now }
{
    put_starts(file, s, list);
    sort(file, s, list);
}

// How many places a file's part has.
fn size_of(file: u64, s: &[u8]) -> usize
    requires { KeyFile file s.now }
    ensures { result ≡ length (part_of file s.now) }
{
    if rising(file, s) {
        return 0;
    }
    count(file, s)
}

// A file's part, from `at` on.
fn put_part(file: u64, s: &[u8], list: &mut [u32], at: usize) -> usize
    requires { KeyFile file s.now × (length s.now ≤ longest) × (at + length (part_of file s.now) ≤ length list.old) }
    ensures { (list.new ≡ splice list.old at (part_of file s.now)) × (result ≡ at + length (part_of file s.now)) }
{
    let size = size_of(file, s);
    if size == 0 {
        return at;
    }
    let end = at + size;
    put_file(file, s, &mut list[at..end]);
    end
}

// inner: how many places the hint has
pub fn whole_size(files: &Files) -> usize
    requires { KeyedFiles (batch_of files.now) }
    ensures { result ≡ length (hint_of (batch_of files.now)) }
{
    let mut size = 0;
    for file in 2..11 {
        let s = file_of(file, files);
        size += size_of(file, s);
    }
    size
}

// inner: the hint, from the start of the list on
pub fn put_all(files: &Files, list: &mut [u32])
    requires { KeyedFiles (batch_of files.now) × (length (hint_of (batch_of files.now)) ≤ length list.old) }
    ensures { list.new ≡ splice list.old 0 (hint_of (batch_of files.now)) }
{
    let mut at = 0;
    for file in 2..11 {
        let s = file_of(file, files);
        at = put_part(file, s, list, at);
    }
}

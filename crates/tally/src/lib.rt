// How many records a file has, by its LFs: LF can't stand in a text, so a legal file has one for each record, its last byte. LFs are counted at the
// speed of memory, where a walk from record to record is a step for each. All of it is inner.
#![tactic(auto)]

ghost use Rattle.std.specs.Prelude.{◌≡◌, ◌≤◌, length};
ghost use Rattle.file.specs.Files.{fields_of};
ghost use Rattle.file.specs.Records.{records_in};
ghost use Rattle.keys.specs.KeyFiles.{KeyFile};
ghost use Rattle.tally.specs.Feeds.{feeds};

// The LFs of a part. They are few enough for a byte, which lets the machine count many at once.
fn line_feeds(s: &[u8]) -> u8
    requires { length s.now ≤ 240 }
    ensures { result ≡ feeds s.now }
{
    let mut n: u8 = 0;
    for b in s {
        if *b == b'\n' {
            n += 1;
        }
    }
    n
}

// inner: how many records a file has
pub fn count(file: u64, s: &[u8]) -> usize
    requires { KeyFile file s.now }
    ensures { result ≡ length (records_in (fields_of file) s.now) }
{
    let mut n = 0;
    let mut at = 0;
    while s.len() - at >= 240 {
        n += line_feeds(&s[at..at + 240]) as usize;
        at += 240;
    }
    n + line_feeds(&s[at..]) as usize
}

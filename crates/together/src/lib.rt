// How many bytes the thirteen files have together: document 01, "The check program and the desk host".
#![tactic(auto)]

ghost use Rattle.std.specs.Prelude.{◌≡◌, leb};
ghost use Rattle.thirteen.specs.Lent.{batch_of};
ghost use Rattle.together.specs.Lengths.{bytes_together};

use thirteen::{Files, file_of};

// The most bytes that the files have together.
pub const MOST: usize = 61_440;

// inner: whether the files have 61,440 bytes together at most
pub fn few_enough(files: &Files) -> bool
    ensures { result ≡ leb (bytes_together (batch_of files.now)) 61440 }
{
    let mut left = MOST;
    for file in 1..14 {
        let s = file_of(file, files);
        if s.len() > left {
            return false;
        }
        left -= s.len();
    }
    true
}

// The line of the check program: document 01, "The check program and the desk host". That of the verdict, or that there are too many bytes.
#![tactic(auto)]

ghost use Rattle.std.specs.Prelude.{◌≡◌, ◌≤◌, length};
ghost use Rattle.laws.specs.Splice.{splice};
ghost use Rattle.thirteen.specs.Lent.{batch_of};
ghost use Rattle.wording.specs.Line.{program_line};

use batch::check;
use phrase::lay;
use thirteen::Files;
use together::few_enough;
use verdictline::lay_verdict;

// inner: lays the line of the check program at the front of d, and answers how long it is; the longest has 134 bytes
pub fn program_line(files: &Files, d: &mut [u8]) -> usize
    requires { 134 ≤ length d.old }
    ensures { (d.new ≡ splice d.old 0 (program_line (batch_of files.now))) × (result ≡ length (program_line (batch_of files.now))) × (result ≤ 134) }
{
    if few_enough(files) {
        let verdict = check(files, &[]);
        lay_verdict(verdict, d)
    } else {
        lay(d, 0, b"TOO LARGE\n")
    }
}

// From line to line of a file: a legal file's records are its lines.
#![tactic(auto)]

ghost use Rattle.std.specs.Prelude.{◌≡◌, ◌+◌, ◌≤◌, ◌<◌, length, drop};
ghost use Rattle.lines.specs.Lines.{Place, behind, lead};

// 1 for a byte that isn't LF, else 0: a number, so that eight of them are added with no branch between
fn plain(b: u8) -> usize
    ensures { (result ≤ 1) × (result ≡ 1 → b ≡ 10 → ⊥) }
{
    (b != b'\n') as usize
}

// How many of the four bytes at `i` aren't LF.
fn plain_four(s: &[u8], i: usize) -> usize
    requires { i + 4 ≤ length s.now }
    ensures { (result ≤ 4) × (result ≡ 4 → lead (drop i s.now) ≡ 4 + lead (drop (i + 4) s.now)) }
{
    plain(s[i]) + plain(s[i + 1]) + plain(s[i + 2]) + plain(s[i + 3])
}

// From `at` on past eight bytes at a time, as long as no LF is among them.
fn past_eights(s: &[u8], at: usize) -> usize
    requires { at ≤ length s.now }
    ensures { (result ≤ length s.now) × (result + lead (drop result s.now) ≡ at + lead (drop at s.now)) }
{
    let mut i = at;
    while s.len() - i >= 8 {
        if plain_four(s, i) + plain_four(s, i + 4) != 8 {
            return i;
        }
        i += 8;
    }
    i
}

// inner: the place behind the next LF from `at` on; one behind the end if there is none
pub fn line_after(s: &[u8], at: usize) -> usize
    requires { at < length s.now }
    ensures { result ≡ behind s.now at }
{
    for i in past_eights(s, at)..s.len() {
        if s[i] == b'\n' {
            return i + 1;
        }
    }
    s.len() + 1
}

// inner: the same from the start of a record of n fields on: each field takes three bytes or more, so the LF isn't among the first
pub fn record_after(s: &[u8], at: usize, n: usize) -> usize
    requires { Place n s.now at × (at < length s.now) × (n ≤ 13) }
    ensures { result ≡ behind s.now at }
{
    line_after(s, at + (n * 3 + 1))
}

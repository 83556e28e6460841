// A number in decimal: document 01, "Counts and places are written in decimal without leading zeros". Its digits come by recursion on the
// number divided by ten.
#![tactic(auto)]

ghost use Rattle.std.specs.Prelude.{◌≡◌, [], ◌∷◌, ◌+◌, ◌≤◌, ◌<◌, length};
ghost use Rattle.laws.specs.Splice.{splice};
ghost use Rattle.decimal.specs.Digits.{digits_of};

// inner: lays the digits of n over d from `at` on, and answers the place after them
pub fn number(d: &mut [u8], at: usize, n: u64) -> usize
    requires { at + length (digits_of n) ≤ length d.old }
    ensures { (d.new ≡ splice d.old at (digits_of n)) × (result ≡ at + length (digits_of n)) }
{
    if n < 10 {
        d[at] = b'0' + n as u8;
        at + 1
    } else {
        let p = number(d, at, n / 10);
        d[p] = b'0' + (n % 10) as u8;
        p + 1
    }
}

// A record's key: document 01, "The batch". Keys compare numbers by value. All of it is inner: what each function means is its definition
// in specs/Ranks.antt.
#![tactic(auto)]

ghost use Rattle.std.specs.Prelude.{◌≡◌, ◌≤◌, ◌<◌, ltb, eqb, length, drop};
ghost use Rattle.keys.specs.Keys.{none};
ghost use Rattle.keys.specs.Ranks.{rank_key, rank_of, KeyIs, KeyAt, record_at, digits_from, NumberIs};

// The first two numbers of a key in one, or its only one; and its third, or 0.
#[derive(Clone, Copy)]
pub struct Key {
    pub hi: u64,
    pub lo: u64,
}

// A number, and the place behind its last digit.
#[derive(Clone, Copy)]
struct Number {
    value: u64,
    end: usize,
}

// The number whose digits start at `at`.
fn number_at(s: &[u8], at: usize) -> Number
    requires { (at ≤ length s.now) × (length (digits_from (drop at s.now)) ≤ 9) }
    ensures { NumberIs (digits_from (drop at s.now)) at result.value result.end }
{
    let mut v: u64 = 0;
    for i in at..s.len() {
        let b = s[i];
        if b < b'0' || b > b'9' {
            return Number { value: v, end: i };
        }
        v = v * 10 + (b - b'0') as u64;
    }
    Number {
        value: v,
        end: s.len(),
    }
}

// inner: the key of the record that starts at `at`: its first field in files 2 to 5, its first two in files 6, 7 and 9, its first three in files 8
// and 10.
pub fn key_at(file: u64, s: &[u8], at: usize) -> Key
    requires { KeyAt file s.now at }
    ensures { KeyIs (rank_of file (record_at file s.now at)) result }
{
    let a = number_at(s, at + 1);
    if file < 6 {
        return Key { hi: a.value, lo: 0 };
    }
    let b = number_at(s, a.end + 3);
    let hi = a.value * 1000000000 + b.value;
    if file < 8 || file == 9 {
        return Key { hi, lo: 0 };
    }
    let c = number_at(s, b.end + 3);
    Key { hi, lo: c.value }
}

// inner: whether x is below y
pub fn less(x: Key, y: Key) -> bool
    requires { (x.lo < none) × (y.lo < none) }
    ensures { result ≡ ltb (rank_key x) (rank_key y) }
{
    if x.hi != y.hi {
        return x.hi < y.hi;
    }
    x.lo < y.lo
}

// inner: whether they are one key
pub fn equal(x: Key, y: Key) -> bool
    requires { (x.lo < none) × (y.lo < none) }
    ensures { result ≡ eqb (rank_key x) (rank_key y) }
{
    x.hi == y.hi && x.lo == y.lo
}

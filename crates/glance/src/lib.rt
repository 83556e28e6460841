// A glance at the first records of files: whether their keys seem to rise. Nothing is asked of the bytes, and nothing rests on what is said: it spares a
// pass over files that is of use only where all keys rise. All of it is inner.
#![tactic(auto)]

ghost use Rattle.std.specs.Prelude.{◌≡◌};

use lines::line_after;

// How many records of a file are compared with the one before.
const FIRST: usize = 32;

// How many bytes of a file are looked at: the first records stand there, and a file that has none may be of any length.
const REACH: usize = 65_536;

// What digits are worth, or the last nine of them, where there are more; and the place behind the last.
#[derive(Clone, Copy)]
struct Seen {
    value: u64,
    end: usize,
}

// The first three numbers of a record.
#[derive(Clone, Copy)]
struct Numbers {
    first: u64,
    second: u64,
    third: u64,
}

// The digits from `at` on.
fn number_seen(s: &[u8], at: usize) -> Seen {
    let mut v: u64 = 0;
    for i in at..s.len() {
        if !s[i].is_ascii_digit() {
            return Seen { value: v, end: i };
        }
        v = v % 100000000 * 10 + (s[i] - b'0') as u64;
    }
    Seen {
        value: v,
        end: s.len(),
    }
}

// The place that is three bytes behind this one, or the end: a field's text stands so far behind the one before.
fn text_behind(s: &[u8], at: usize) -> usize {
    at.saturating_add(3).min(s.len())
}

// The numbers of the record at this place.
fn numbers_seen(s: &[u8], at: usize) -> Numbers {
    if at >= s.len() {
        return Numbers {
            first: 0,
            second: 0,
            third: 0,
        };
    }
    let a = number_seen(s, at + 1);
    let b = number_seen(s, text_behind(s, a.end));
    let c = number_seen(s, text_behind(s, b.end));
    Numbers {
        first: a.value,
        second: b.value,
        third: c.value,
    }
}

// Whether x comes before y. A file's key may have fewer than three numbers: what follows it counts only where they are the same.
fn comes_before(x: Numbers, y: Numbers) -> bool {
    (x.first, x.second, x.third) < (y.first, y.second, y.third)
}

// Whether the keys of the first records seem to rise.
fn first_rise(s: &[u8]) -> bool {
    let mut at = 0;
    let mut last = numbers_seen(s, 0);
    for _ in 0..FIRST {
        if at >= s.len() {
            return true;
        }
        let next = line_after(s, at);
        if next >= s.len() {
            return true;
        }
        let numbers = numbers_seen(s, next);
        if !comes_before(last, numbers) {
            return false;
        }
        last = numbers;
        at = next;
    }
    true
}

// The same of a file, however long it is.
fn seems_rising(s: &[u8]) -> bool {
    first_rise(&s[..s.len().min(REACH)])
}

// inner: whether the keys of the files seem to rise, Zastavky to Caskody
pub fn seem_rising(
    f2: &[u8],
    f3: &[u8],
    f4: &[u8],
    f5: &[u8],
    f6: &[u8],
    f7: &[u8],
    f8: &[u8],
    f9: &[u8],
    f10: &[u8],
) -> bool {
    seems_rising(f2)
        && seems_rising(f3)
        && seems_rising(f4)
        && seems_rising(f5)
        && seems_rising(f6)
        && seems_rising(f7)
        && seems_rising(f8)
        && seems_rising(f9)
        && seems_rising(f10)
}

// Where a search looks next: at the middle of what is left, or where the keys that were seen at its two ends let expect what is sought. All of it is inner.
#![tactic(auto)]

ghost use Rattle.std.specs.Prelude.{◌≤◌, ◌<◌};

// How many of 65536 parts of `all` n is.
fn parts_of(n: u64, all: u64) -> u64
    requires { n < all }
{
    if all >= 281474976710656 {
        return n / (all / 65536 + 1);
    }
    n * 65536 / all
}

// So many of 65536 parts of the way; the whole way, where that is too long to tell.
fn part_of_way(size: usize, parts: u64) -> usize {
    if parts >= 65536 || size >= 4294967296 {
        return size;
    }
    size * (parts as usize) / 65536
}

// How far on a way of this size x is to be expected, by the keys that were seen at its two ends; the end, where none above x was seen.
fn guess(size: usize, below: u64, above: u64, x: u64) -> usize {
    if x <= below {
        return 0;
    }
    if above <= x {
        return size;
    }
    part_of_way(size, parts_of(x - below, above - below))
}

// What is left of a search: from `lo` on and before `hi`; and the keys that were seen there, or 0.
#[derive(Clone, Copy)]
pub struct Left {
    pub lo: usize,
    pub hi: usize,
    pub below: u64,
    pub above: u64,
}

// inner: where to look next: where x is to be expected, but so far from both ends that what is left is soon small; the middle, where there is no room for that
pub fn next_look(left: Left, x: u64, margin: usize) -> usize
    requires { (left.lo < left.hi) × (0 < margin) }
    ensures { (left.lo ≤ result) × (result < left.hi) }
{
    let size = left.hi - left.lo;
    if size / 4 < margin {
        return left.lo + size / 2;
    }
    left.lo + guess(size, left.below, left.above, x).clamp(margin, size - margin)
}

// inner: the margin grows by half and one, so that the number of looks stays that of a bisection
pub fn wider(margin: usize) -> usize
    ensures { margin ≤ result }
{
    if margin >= 4294967296 {
        return margin;
    }
    margin + margin / 2 + 1
}

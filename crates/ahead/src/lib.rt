// Looks at the records that come next in the order of a list. They lie scattered over the file, and one that is read only when its turn comes is waited for;
// these looks don't wait for each other, so 32 records come near in the time of one. All of it is inner, and nothing rests on what is answered.
#![tactic(auto)]

// Whether a record may start at a place: a quote stands there. The byte 48 on is looked at too, since a record often ends in the next stretch of memory.
fn seems_record(s: &[u8], at: usize) -> bool {
    at < s.len() && s[at] == b'"' && (s.len() - at <= 48 || s[at + 48] != 0)
}

// Whether records may start at the next 32 entries of a list.
fn seem_records(s: &[u8], order: &[u32], from: usize) -> bool {
    from > order.len()
        || order[from..]
            .iter()
            .take(32)
            .all(|at| seems_record(s, *at as usize))
}

// inner: for a pass over a list that has come to entry i: at every 32nd, looks at the next 32
pub fn list_goes_on(s: &[u8], order: &[u32], i: usize) -> bool {
    i % 32 != 0 || seem_records(s, order, i)
}

// inner: for a walk that goes from entry to entry, not always upward, and has come to this one: looks at the 32 behind the next ones
pub fn walk_goes_on(s: &[u8], order: &[u32], entry: usize) -> bool {
    entry >= order.len() || seem_records(s, order, entry / 32 * 32 + 64)
}

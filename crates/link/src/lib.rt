// Keys, links and signs: document 01, "The batch" and the permitted signs under "Fields"; refusals 7, 8 and 9. Here stand the definitions and what a
// batch keeps by them; the code that looks a field up in the tables is in the crate `targets`.
#![tactic(auto)]

// What a field links to.
#[derive(Clone, Copy)]
pub enum Link {
    // Nothing.
    Free,
    // A line, by this field.
    Line,
    // A stop, by this field.
    Stop,
    // A carrier, by this field.
    Carrier,
    // A trip, by fields 1 and 2.
    Trip,
    // The same, unless this field is 0.
    TripOrZero,
    // A line's stop, by fields 1 and 3.
    LineStop,
    // A code, by this field, unless it is empty.
    Code,
}

// What the check of keys, links and signs comes to.
#[derive(Clone, Copy)]
pub enum Linked {
    // Nothing is wrong.
    Sound,
    // File and record: its key is used by an earlier record.
    Used(u64, u64),
    // File, record and field: a link to nothing.
    Dangling(u64, u64, u64),
    // File, record and field: its sign is not permitted here.
    Misplaced(u64, u64, u64),
}

// The bytes of a file: document 01, "Bytes of a file". A file is read in one way only, and read so: exact, or refused at the byte
// with which no legal file goes on. Nothing is undoubled, nothing is guessed.
#![tactic(auto)]

mod table;

pub use table::{class_of, fields_of};

// What reading a file of records comes to.
#[derive(Clone, Copy)]
pub enum Outcome {
    // A legal file of so many records.
    Whole(usize),
    // No legal file goes on with the byte at this offset.
    Unfit(usize),
    // The file ends at this offset, inside a record.
    CutShort(usize),
}

// Why a call refuses; the file's number and the offset where document 01 names a place.
#[derive(Clone, Copy)]
pub enum Refusal {
    TooLong(u64),
    Unfit(u64, u64),
    CutShort(u64, u64),
    NoSuch,
    NotPermitted,
    NoRoom,
}

// A stretch of the file.
#[derive(Clone, Copy)]
pub struct Stretch {
    pub start: u64,
    pub size: u64,
}

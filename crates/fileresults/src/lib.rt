// What C is handed of the file's calls (document 01, "Bytes of a file"). Each result's `number` is 0 for an answer, else the refusal's; the
// place and the answer's values follow, 0 where there is none.
#![tactic(auto)]

ghost use Rattle.std.specs.Prelude.{◌≡◌};
ghost use Rattle.file.specs.Answers.{numbered};
ghost use Rattle.fileresults.specs.Results.{refused_place, RecordsGives, StretchGives, WriteGives};

use file::Refusal;

// Which of document 01's refusals, and where.
#[derive(Clone, Copy)]
pub struct Place {
    pub number: u64,
    pub file: u64,
    pub offset: u64,
}

#[repr(C)]
#[derive(Clone, Copy)]
pub struct RecordsResult {
    pub number: u64,
    pub file: u64,
    pub record: u64,
    pub field: u64,
    pub offset: u64,
    pub records: u64,
}

#[repr(C)]
#[derive(Clone, Copy)]
pub struct StretchResult {
    pub number: u64,
    pub file: u64,
    pub record: u64,
    pub field: u64,
    pub offset: u64,
    pub start: u64,
    pub length: u64,
}

#[repr(C)]
#[derive(Clone, Copy)]
pub struct WriteResult {
    pub number: u64,
    pub place: u64,
}

// inner: document 01's number and place of a refusal.
pub fn place_of(why: Refusal) -> Place
    ensures { result ≡ refused_place (numbered why) }
{
    match why {
        Refusal::TooLong(file) => Place {
            number: 1,
            file,
            offset: 0,
        },
        Refusal::Unfit(file, offset) => Place {
            number: 2,
            file,
            offset,
        },
        Refusal::CutShort(file, offset) => Place {
            number: 3,
            file,
            offset,
        },
        Refusal::NoSuch => Place {
            number: 20,
            file: 0,
            offset: 0,
        },
        Refusal::NotPermitted => Place {
            number: 21,
            file: 0,
            offset: 0,
        },
        Refusal::NoRoom => Place {
            number: 22,
            file: 0,
            offset: 0,
        },
    }
}

// inner: the number of records of a file.
pub fn records(file: u64, bytes: &[u8]) -> RecordsResult
    ensures { RecordsGives file bytes.now result }
{
    match reader::records(file, bytes) {
        Ok(k) => RecordsResult {
            number: 0,
            file: 0,
            record: 0,
            field: 0,
            offset: 0,
            records: k,
        },
        Err(why) => {
            let p = place_of(why);
            RecordsResult {
                number: p.number,
                file: p.file,
                record: 0,
                field: 0,
                offset: p.offset,
                records: 0,
            }
        }
    }
}

// inner: where a field of a record stands.
pub fn stretch(file: u64, bytes: &[u8], row: u64, field: u64) -> StretchResult
    ensures { StretchGives file bytes.now row field result }
{
    match reader::stretch_of(file, bytes, row, field) {
        Ok(part) => StretchResult {
            number: 0,
            file: 0,
            record: 0,
            field: 0,
            offset: 0,
            start: part.start,
            length: part.size,
        },
        Err(why) => {
            let p = place_of(why);
            StretchResult {
                number: p.number,
                file: p.file,
                record: 0,
                field: 0,
                offset: p.offset,
                start: 0,
                length: 0,
            }
        }
    }
}

// inner: one field into the middle of a buffer.
pub fn write(file: u64, field: u64, text: &[u8], buffer: &mut [u8], place: u64) -> WriteResult
    ensures { WriteGives file field text.now buffer.old place (result, buffer.new) }
{
    match writer::write(file, field, text, buffer, place) {
        Ok(next) => WriteResult {
            number: 0,
            place: next,
        },
        Err(why) => {
            let p = place_of(why);
            WriteResult {
                number: p.number,
                place: 0,
            }
        }
    }
}

// The file's calls for C (document 01, "Bytes of a file"), and the version. Each result's `number` is 0 for an answer, else the refusal's;
// the place and the answer's values follow, 0 where there is none; the version is a number alone. Bytes are lent for the call alone; only
// `slovdrim_write` writes, and only where it answers.
ghost use Rattle.fileresults.specs.Results.{RecordsGives, StretchGives, WriteGives};
ghost use Rattle.version.specs.Version.{VersionGives};

use fileresults::{RecordsResult, StretchResult, WriteResult};

// The number of records of a file.
#[unsafe(no_mangle)]
pub extern "C" fn slovdrim_records(file: u64, bytes: &[u8]) -> RecordsResult
    ensures { RecordsGives file bytes.now result }
{
    fileresults::records(file, bytes)
}

// Where a field of a record stands.
#[unsafe(no_mangle)]
pub extern "C" fn slovdrim_stretch(file: u64, bytes: &[u8], row: u64, field: u64) -> StretchResult
    ensures { StretchGives file bytes.now row field result }
{
    fileresults::stretch(file, bytes, row, field)
}

// One field into the middle of a buffer.
#[unsafe(no_mangle)]
pub extern "C" fn slovdrim_write(
    file: u64,
    field: u64,
    text: &[u8],
    buffer: &mut [u8],
    place: u64,
) -> WriteResult
    ensures { WriteGives file field text.now buffer.old place (result, buffer.new) }
{
    fileresults::write(file, field, text, buffer, place)
}

// The version of this interface.
#[unsafe(no_mangle)]
pub extern "C" fn slovdrim_version() -> u64
    ensures { VersionGives result }
{
    version::version()
}

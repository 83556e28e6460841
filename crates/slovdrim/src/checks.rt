// The check of one file for C: document 01's 20, 1 to 3, 5 and 6. Bytes are lent for the call alone; nothing is written.
ghost use Rattle.fieldsresults.specs.Results.{FieldsGives};

use checkresults::FieldsResult;

// The first fault inside one file, read by itself.
#[unsafe(no_mangle)]
pub extern "C" fn slovdrim_fields(file: u64, bytes: &[u8]) -> FieldsResult
    ensures { FieldsGives file bytes.now result }
{
    fieldsresults::fields(file, bytes)
}

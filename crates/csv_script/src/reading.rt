//! The records of a file, one after another.
ghost use Rattle.std.specs.Prelude.{◌≡◌, ◌++◌, ◌∷◌, [], ℕ, List, Some, IfOk, true, false};
ghost use Rattle.csv.specs.Records.{fields_of};
ghost use Rattle.csv_script.specs.Reading.{AreRecordsOf, IsReading};

use csv::{ByteRecord, ErrorKind, Reader, ReaderBuilder};
use std::alloc::Global;
use std::io::Read;

/// Why no record was read.
#[derive(Clone, Copy)]
pub enum NotRead {
    /// A read failed.
    Input,
    /// Memory was refused.
    Memory,
}

/// A reader of all records, the header too, whatever number of fields each has.
pub fn reader_of<R: Read>(alloc: Global, file: R) -> Reader<R>
    ensures { (text : List ℕ) → R.remaining file ≡ Some text → IsReading R.remaining text [] result }
{
    ReaderBuilder::new()
        .has_headers(false)
        .flexible(true)
        .from_reader(alloc, file)
}

/// Reads the next record; `false` where there is none.
pub fn read<R: Read>(reader: &mut Reader<R>, fields: &mut ByteRecord) -> Result<bool, NotRead>
    ensures more { IfOk result (λ found. found ≡ true → (text : List ℕ) (records : List (List (List ℕ)))
        → IsReading R.remaining text records reader.old
        → IsReading R.remaining text (records ++ fields_of fields.new ∷ []) reader.new) }
    ensures none { IfOk result (λ found. found ≡ false → (text : List ℕ) (records : List (List (List ℕ)))
        → IsReading R.remaining text records reader.old → AreRecordsOf text records) }
{
    match reader.read_byte_record(fields) {
        Ok(found) => Ok(found),
        Err(error) => match error.kind() {
            ErrorKind::OutOfMemory => Err(NotRead::Memory),
            _ => Err(NotRead::Input),
        },
    }
}

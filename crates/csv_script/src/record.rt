//! A record of CSV as a row line.
ghost use Rattle.std.specs.Prelude.{◌≡◌, ◌++◌, ℕ, List, length, slice_get, Some, IfErr, OnOk};
ghost use Rattle.csv.specs.Records.{fields_of};
ghost use Rattle.rows_core.specs.declared.value.Value.{Value};
ghost use Rattle.row_text.specs.RowSpelling.{row_spelling, value_spelling};
ghost use Rattle.csv_script.specs.Blocks.{row_line};
ghost use Rattle.csv_script.specs.Cells.{separator, IsCell};
ghost use Rattle.csv_script.specs.Records.{field_of, ArePicked, IsFor, IsRowOf};
ghost use Rattle.csv_script.specs.declared.pick.Pick.{Pick};
ghost use Rattle.csv_script.specs.declared.record.RecordRefusal.TheVariants.{Memory};

use crate::cell::{CellRefusal, put_byte, put_cell};
use crate::pick::Pick;
use csv::ByteRecord;
use std::alloc::AllocError;
use thiserror::Error;

/// Why a record is no row.
#[derive(Clone, Copy, Debug, PartialEq, Eq, Error)]
pub enum RecordRefusal {
    /// It hasn't as many fields as the header.
    #[error("another number of fields than the header")]
    Width,
    /// The field of this column, counted from 0, is no value of its kind.
    #[error("a field is no value of its column's kind")]
    NotOfKind { column: usize },
    /// The field of this column, counted from 0, is a text of more than 1,000 bytes.
    #[error("a text of more than 1000 bytes")]
    TooLong { column: usize },
    /// Memory was refused.
    #[error("out of memory")]
    Memory,
}

impl From<AllocError> for RecordRefusal {
    ghost from_gives = { λ _ e. e ≡ Memory };

    fn from(_error: AllocError) -> RecordRefusal {
        RecordRefusal::Memory
    }
}

/// Puts the line of the row that the record is, with its LF, in place of what stood in `line`.
pub fn put_record(
    picks: &[Pick],
    width: usize,
    fields: &ByteRecord,
    line: &mut Vec<u8>,
) -> Result<(), RecordRefusal>
    ensures ok { OnOk result ((row : List Value) × IsRowOf picks.now width (fields_of fields.now) row
        × (line.new.items ≡ row_line row)) }
    ensures why { IfErr result (λ why. IsFor picks.now width (fields_of fields.now) why) }
{
    line.clear();
    if fields.len() != width {
        return Err(RecordRefusal::Width);
    }
    put_values(picks, fields, line)?;
    put_byte(b'\n', line)?;
    Ok(())
}

// Appends the values, with commas between them.
fn put_values(picks: &[Pick], fields: &ByteRecord, line: &mut Vec<u8>) -> Result<(), RecordRefusal>
    ensures ok { OnOk result ((row : List Value) × ArePicked (fields_of fields.now) picks.now row
        × (line.new.items ≡ line.old.items ++ row_spelling row)) }
    ensures why { IfErr result (λ why. (width : ℕ) → length (fields_of fields.now) ≡ width
        → IsFor picks.now width (fields_of fields.now) why) }
{
    for (column, pick) in picks.iter().enumerate() {
        put_separator(column, line)?;
        put_picked(column, pick, fields, line)?;
    }
    Ok(())
}

// Appends a comma but before the first column.
fn put_separator(column: usize, line: &mut Vec<u8>) -> Result<(), AllocError>
    ensures ok { OnOk result (line.new.items ≡ line.old.items ++ separator column) }
{
    if column == 0 {
        return Ok(());
    }
    put_byte(b',', line)
}

// Appends the value of a column.
fn put_picked(
    column: usize,
    pick: &Pick,
    fields: &ByteRecord,
    line: &mut Vec<u8>,
) -> Result<(), RecordRefusal>
    ensures ok { OnOk result ((value : Value) × IsCell pick.now.kind (field_of (fields_of fields.now) pick.now) value
        × (line.new.items ≡ line.old.items ++ value_spelling value)) }
    ensures why { IfErr result (λ why. (picks : List Pick) (width : ℕ) → slice_get picks column ≡ Some pick.now
        → length (fields_of fields.now) ≡ width → IsFor picks width (fields_of fields.now) why) }
{
    let field = field_of(fields, pick);
    match put_cell(pick.kind, field, line) {
        Ok(()) => Ok(()),
        Err(CellRefusal::NotOfKind) => Err(RecordRefusal::NotOfKind { column }),
        Err(CellRefusal::TooLong) => Err(RecordRefusal::TooLong { column }),
        Err(CellRefusal::Memory) => Err(RecordRefusal::Memory),
    }
}

// The field of a column.
fn field_of<'a>(fields: &'a ByteRecord, pick: &Pick) -> &'a [u8]
    ensures { result.now ≡ field_of (fields_of fields.entry.now) pick.now }
{
    match fields.get(pick.place) {
        Some(field) => field,
        None => b"",
    }
}

//! How a line is read as a row.
ghost use Rattle.std.specs.Prelude.{◌≡◌, ◌≢◌, ◌++◌, List, map, IfOk, IfSome, IfNone, IsErrOf, ◌∷◌, ℕ};
ghost use Rattle.std.specs.List.{AllByRecursion};
ghost use Rattle.rows_core.specs.declared.value.Value.{Value};
ghost use Rattle.rows_core.specs.Schema.{kinds_of};
ghost use Rattle.row_text.specs.RowSpelling.{more_spelling, row_spelling, IsLoose, IsLooseRow, IsLong};
ghost use Rattle.row_text.specs.RowSpelling.{IsShort, HasLong};
ghost use Rattle.row_text.specs.Fields.{value_of, values_of, Ends};

use crate::field::{Field, field_at};
use rows_core::{Column, Memory, Row, Schema, Txt, TxtRefusal, Value};
use std::alloc::Global;
use thiserror::Error;

/// Why a line was not read as a row.
#[derive(Clone, Copy, Debug, PartialEq, Eq, Error)]
pub enum RowRefusal {
    #[error("not a row of these kinds")]
    NotRow,
    #[error("a text is too long")]
    TooLong,
    #[error("out of memory")]
    Memory,
}

/// The row of the schema's kinds that is spelled so. `NotRow` comes where no row of these kinds, with texts
/// of any length, is spelled so, and `TooLong` where one is, with a text above 1,000 bytes. No two rows share
/// a spelling (`one_spelling`), so but for want of memory each comes exactly there.
pub fn read_row(alloc: Global, line: &[u8], schema: &Schema) -> Result<Row, RowRefusal>
    ensures kinds { IfOk result (λ row. IsLooseRow (kinds_of schema.now) row) }
    ensures short { IfOk result (λ row. AllByRecursion IsShort row) }
    ensures spelling { IfOk result (λ row. line.now ≡ row_spelling row) }
    ensures not_row { IsErrOf result RowRefusal.NotRow →
        ((row : List Value) → IsLooseRow (kinds_of schema.now) row → line.now ≢ row_spelling row) }
    ensures too_long { IsErrOf result RowRefusal.TooLong →
        ((row : List Value) × IsLooseRow (kinds_of schema.now) row × (line.now ≡ row_spelling row)
        × HasLong row) }
{
    match fields_of(alloc, schema.columns(), line) {
        Ok(Some(fields)) => row_of(alloc, fields),
        Ok(None) => Err(RowRefusal::NotRow),
        Err(_) => Err(RowRefusal::Memory),
    }
}

/// The fields of a line, one for each column; `None` where it has no such fields.
fn fields_of(alloc: Global, columns: &[Column], line: &[u8]) -> Result<Option<Vec<Field>>, Memory>
    ensures found { IfOk result (λ found. IfSome found (λ fields.
        IsLooseRow (kinds_of columns.now) (values_of fields.items))) }
    ensures spelling { IfOk result
        (λ found. IfSome found (λ fields. line.now ≡ row_spelling (values_of fields.items))) }
    ensures none { IfOk result (λ found. IfNone found ((row : List Value) →
        IsLooseRow (kinds_of columns.now) row → line.now ≢ row_spelling row)) }
{
    let [first, others @ ..] = columns else {
        return Ok(if line.is_empty() {
            Some(Vec::new(alloc))
        } else {
            None
        });
    };
    let Some((field, rest)) = field_at(alloc, first.kind, line)? else {
        return Ok(None);
    };
    let Some(mut fields) = more_fields(alloc, others, rest)? else {
        return Ok(None);
    };
    fields.insert(0, field)?;
    Ok(Some(fields))
}

/// The fields that stand each behind a comma, one for each column; `None` where they aren't all that stands
/// there.
fn more_fields(
    alloc: Global,
    columns: &[Column],
    bytes: &[u8],
) -> Result<Option<Vec<Field>>, Memory>
    requires { Ends bytes.now }
    ensures found { IfOk result (λ found. IfSome found (λ fields.
        IsLooseRow (kinds_of columns.now) (values_of fields.items))) }
    ensures spelling { IfOk result
        (λ found. IfSome found (λ fields. bytes.now ≡ more_spelling (values_of fields.items))) }
    ensures none { IfOk result (λ found. IfNone found ((more : List Value) →
        IsLooseRow (kinds_of columns.now) more → bytes.now ≢ more_spelling more)) }
{
    let mut fields = Vec::with_capacity(alloc, columns.len())?;
    let mut rest = bytes;
    for column in columns {
        let Some(after) = after_comma(rest) else {
            return Ok(None);
        };
        let Some((field, after)) = field_at(alloc, column.kind, after)? else {
            return Ok(None);
        };
        fields.push(field)?;
        rest = after;
    }
    if rest.is_empty() {
        Ok(Some(fields))
    } else {
        Ok(None)
    }
}

/// What stands after the comma at the front.
fn after_comma(bytes: &[u8]) -> Option<&[u8]>
    ensures found { IfSome result (λ after. bytes.now ≡ 44 ∷ after.now) }
    ensures none { IfNone result ((after : List ℕ) → bytes.now ≢ 44 ∷ after) }
{
    match bytes {
        [b',', after @ ..] => Some(after),
        _ => None,
    }
}

/// The row of these fields; `TooLong` where a text is above 1,000 bytes.
fn row_of(alloc: Global, fields: Vec<Field>) -> Result<Row, RowRefusal>
    requires { AllByRecursion IsLoose (values_of fields.items) }
    ensures row { IfOk result (λ row. row ≡ values_of fields.items) }
    ensures short { IfOk result (λ row. AllByRecursion IsShort row) }
    ensures not_row { IsErrOf result RowRefusal.NotRow → ⊥ }
    ensures too_long { IsErrOf result RowRefusal.TooLong → HasLong (values_of fields.items) }
{
    let Ok(mut values) = Vec::with_capacity(alloc, fields.len()) else {
        return Err(RowRefusal::Memory);
    };
    for field in fields {
        let value = value_of_field(field)?;
        if values.push(value).is_err() {
            return Err(RowRefusal::Memory);
        }
    }
    Ok(Row::new(values))
}

/// The field as a value, which takes its text over.
fn value_of_field(field: Field) -> Result<Value, RowRefusal>
    requires { IsLoose (value_of field) }
    ensures value { IfOk result (λ value. value ≡ value_of field) }
    ensures short { IfOk result (λ value. IsShort value) }
    ensures not_row { IsErrOf result RowRefusal.NotRow → ⊥ }
    ensures too_long { IsErrOf result RowRefusal.TooLong → IsLong (value_of field) }
{
    match field {
        Field::Int(number) => Ok(Value::Int(number)),
        Field::Bool(truth) => Ok(Value::Bool(truth)),
        Field::Text(text) => match Txt::from_vec(text.into_vec()) {
            Ok(text) => Ok(Value::Text(text)),
            Err(TxtRefusal::NotText) => Err(RowRefusal::NotRow),
            Err(TxtRefusal::TooLong) => Err(RowRefusal::TooLong),
            Err(TxtRefusal::Memory) => Err(RowRefusal::Memory),
        },
    }
}

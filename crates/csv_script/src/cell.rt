//! A field of CSV as a value, as it stands in a row line.
ghost use Rattle.std.specs.Prelude.{◌≡◌, ◌≢◌, ◌++◌, ◌∷◌, [], Bool, IsErrOf, OnOk, IfSome, IfNone};
ghost use Rattle.std.specs.List.{flat_map};
ghost use Rattle.rows_core.specs.declared.kind.Kind.TheVariants as kind;
ghost use Rattle.rows_core.specs.declared.value.Value.{Value};
ghost use Rattle.row_text.specs.RowSpelling.{byte_spelling, text_spelling, truth_spelling, value_spelling};
ghost use Rattle.csv_script.specs.Cells.{IsCell, IsLongText, SaysNone};
ghost use Rattle.csv_script.specs.declared.cell.CellRefusal.TheVariants.{Memory};

use crate::number::number_of;
use rows_core::{Kind, is_text};
use std::alloc::{AllocError, AllocFailed};
use thiserror::Error;

/// The greatest length of a text, in bytes.
const MAX_TEXT_LEN: usize = 1_000;

/// Why a field is no value of a kind.
#[derive(Clone, Copy, Debug, PartialEq, Eq, Error)]
pub enum CellRefusal {
    #[error("not a value of the column's kind")]
    NotOfKind,
    #[error("a text of more than 1000 bytes")]
    TooLong,
    #[error("out of memory")]
    Memory,
}

impl From<AllocError> for CellRefusal {
    ghost from_gives = { λ _ e. e ≡ Memory };

    fn from(_error: AllocError) -> CellRefusal {
        CellRefusal::Memory
    }
}

impl<T: Drop> From<AllocFailed<T>> for CellRefusal {
    ghost from_gives = { λ _ e. e ≡ Memory };

    fn from(_error: AllocFailed<T>) -> CellRefusal {
        CellRefusal::Memory
    }
}

/// Appends the field's value as a row line spells it. `NotOfKind` comes where no value of the kind, with a
/// text of any length, has this text, and `TooLong` where a text of more than 1,000 bytes has it.
pub fn put_cell(kind: Kind, field: &[u8], line: &mut Vec<u8>) -> Result<(), CellRefusal>
    ensures ok { OnOk result ((value : Value) × IsCell kind field.now value
        × (line.new.items ≡ line.old.items ++ value_spelling value)) }
    ensures not_of_kind { IsErrOf result CellRefusal.NotOfKind → SaysNone kind field.now }
    ensures too_long { IsErrOf result CellRefusal.TooLong → IsLongText kind field.now }
{
    match kind {
        Kind::Int => put_number(field, line),
        Kind::Text => put_text(field, line),
        Kind::Bool => put_truth(field, line),
    }
}

fn put_number(field: &[u8], line: &mut Vec<u8>) -> Result<(), CellRefusal>
    ensures ok { OnOk result ((value : Value) × IsCell kind.Int field.now value
        × (line.new.items ≡ line.old.items ++ value_spelling value)) }
    ensures not_of_kind { IsErrOf result CellRefusal.NotOfKind → SaysNone kind.Int field.now }
    ensures too_long { IsErrOf result CellRefusal.TooLong → ⊥ }
{
    let Some(_number) = number_of(field) else {
        return Err(CellRefusal::NotOfKind);
    };
    line.extend_from_slice(field)?;
    Ok(())
}

fn put_truth(field: &[u8], line: &mut Vec<u8>) -> Result<(), CellRefusal>
    ensures ok { OnOk result ((value : Value) × IsCell kind.Bool field.now value
        × (line.new.items ≡ line.old.items ++ value_spelling value)) }
    ensures not_of_kind { IsErrOf result CellRefusal.NotOfKind → SaysNone kind.Bool field.now }
    ensures too_long { IsErrOf result CellRefusal.TooLong → ⊥ }
{
    let Some(_truth) = truth_of(field) else {
        return Err(CellRefusal::NotOfKind);
    };
    line.extend_from_slice(field)?;
    Ok(())
}

/// The truth value that is spelled so.
pub fn truth_of(bytes: &[u8]) -> Option<bool>
    ensures found { IfSome result (λ truth. bytes.now ≡ truth_spelling truth) }
    ensures none { IfNone result ((truth : Bool) → bytes.now ≢ truth_spelling truth) }
{
    match bytes {
        b"true" => Some(true),
        b"false" => Some(false),
        _ => None,
    }
}

fn put_text(field: &[u8], line: &mut Vec<u8>) -> Result<(), CellRefusal>
    ensures ok { OnOk result ((value : Value) × IsCell kind.Text field.now value
        × (line.new.items ≡ line.old.items ++ value_spelling value)) }
    ensures not_of_kind { IsErrOf result CellRefusal.NotOfKind → SaysNone kind.Text field.now }
    ensures too_long { IsErrOf result CellRefusal.TooLong → IsLongText kind.Text field.now }
{
    if !is_text(field) {
        return Err(CellRefusal::NotOfKind);
    }
    if field.len() > MAX_TEXT_LEN {
        return Err(CellRefusal::TooLong);
    }
    quote(field, line)?;
    Ok(())
}

// Appends a text between two `"`.
fn quote(text: &[u8], line: &mut Vec<u8>) -> Result<(), AllocError>
    ensures ok { OnOk result (line.new.items ≡ line.old.items ++ text_spelling text.now) }
{
    put_byte(b'"', line)?;
    escape(text, line)?;
    put_byte(b'"', line)
}

// Appends the bytes of a text.
fn escape(text: &[u8], line: &mut Vec<u8>) -> Result<(), AllocError>
    ensures ok { OnOk result (line.new.items ≡ line.old.items ++ flat_map byte_spelling text.now) }
{
    for byte in text {
        if *byte == b'"' || *byte == b'\\' {
            put_byte(b'\\', line)?;
        }
        put_byte(*byte, line)?;
    }
    Ok(())
}

/// Appends a byte.
pub fn put_byte(byte: u8, line: &mut Vec<u8>) -> Result<(), AllocError>
    ensures ok { OnOk result (line.new.items ≡ line.old.items ++ byte ∷ []) }
{
    line.push(byte)?;
    Ok(())
}

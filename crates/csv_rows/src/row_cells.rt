//! A row line as a record of CSV.
ghost use Rattle.std.specs.Prelude.{◌≡◌, ◌++◌, ◌∷◌, [], IfOk, IfSome, true};
ghost use Rattle.std.specs.List.{flat_map};
ghost use Rattle.csv.specs.Records.{fields_of, partial_of};
ghost use Rattle.row_text.specs.RowSpelling.{byte_spelling};
ghost use Rattle.csv_script.specs.Cells.{IsValueAt};
ghost use Rattle.csv_rows.specs.Results.{IsWhole, IsWord};

use csv::ByteRecord;
use csv_script::cell::truth_of;
use csv_script::number::number_of;
use rows_core::{Memory, is_text};

/// Puts the cells of the row that the line spells in place of the record's fields. `false` where it finds no
/// row there.
pub fn put_cells(line: &[u8], text: &mut Vec<u8>, fields: &mut ByteRecord) -> Result<bool, Memory>
    ensures { IfOk result (λ is. is ≡ true → IsWhole line.now (fields_of fields.new)) }
{
    fields.clear();
    let mut rest = line;
    while let Some(after) = put_next(rest, text, fields)? {
        match after {
            [] => return Ok(true),
            [b',', more @ ..] => rest = more,
            _ => return Ok(false),
        }
    }
    Ok(false)
}

// Adds the cell of the value at the front; what stands behind the value.
fn put_next<'a>(
    bytes: &'a [u8],
    text: &mut Vec<u8>,
    fields: &mut ByteRecord,
) -> Result<Option<&'a [u8]>, Memory>
    ensures found { IfOk result (λ found. IfSome found (λ rest. IsValueAt bytes.entry.now rest.now
        (fields_of fields.old) (fields_of fields.new) (partial_of fields.old))) }
    ensures clean { IfOk result (λ found. IfSome found (λ rest. partial_of fields.new ≡ [])) }
{
    match bytes {
        [b'"', quoted @ ..] => put_text(quoted, text, fields),
        _ => put_word(bytes, fields),
    }
}

// Adds the text that stands up to a `"`.
fn put_text<'a>(
    quoted: &'a [u8],
    text: &mut Vec<u8>,
    fields: &mut ByteRecord,
) -> Result<Option<&'a [u8]>, Memory>
    ensures found { IfOk result (λ found. IfSome found (λ rest. IsValueAt (34 ∷ quoted.entry.now) rest.now
        (fields_of fields.old) (fields_of fields.new) (partial_of fields.old))) }
    ensures clean { IfOk result (λ found. IfSome found (λ rest. partial_of fields.new ≡ [])) }
{
    let rest = read_text(quoted, text)?;
    let Some(behind) = behind_mark(rest) else {
        return Ok(None);
    };
    let bytes = text.as_slice();
    if !is_text(bytes) {
        return Ok(None);
    }
    fields.push_field(bytes)?;
    Ok(Some(behind))
}

// What stands behind the `"` at the front.
fn behind_mark(bytes: &[u8]) -> Option<&[u8]>
    ensures { IfSome result (λ behind. bytes.now ≡ 34 ∷ behind.now) }
{
    match bytes {
        [b'"', behind @ ..] => Some(behind),
        _ => None,
    }
}

// Puts the bytes of the text at the front in place of what stood in `text`; what stands behind them.
fn read_text<'a>(quoted: &'a [u8], text: &mut Vec<u8>) -> Result<&'a [u8], Memory>
    ensures { IfOk result (λ rest. quoted.entry.now ≡ flat_map byte_spelling text.new.items ++ rest.now) }
{
    text.clear();
    let mut rest = quoted;
    while let Some((byte, behind)) = text_byte(rest) {
        text.push(byte)?;
        rest = behind;
    }
    Ok(rest)
}

// The byte of a text that is spelled at the front, and what stands behind its spelling.
fn text_byte(bytes: &[u8]) -> Option<(u8, &[u8])>
    ensures { IfSome result (λ b. bytes.now ≡ byte_spelling b.0 ++ b.1.now) }
{
    match bytes {
        [b'"', ..] => None,
        [b'\\', byte @ (b'"' | b'\\'), behind @ ..] => Some((*byte, behind)),
        [b'\\', ..] => None,
        [byte, behind @ ..] => Some((*byte, behind)),
        [] => None,
    }
}

// Adds the number or the truth value that stands up to a comma.
fn put_word<'a>(bytes: &'a [u8], fields: &mut ByteRecord) -> Result<Option<&'a [u8]>, Memory>
    ensures found { IfOk result (λ found. IfSome found (λ rest. IsValueAt bytes.entry.now rest.now
        (fields_of fields.old) (fields_of fields.new) (partial_of fields.old))) }
    ensures clean { IfOk result (λ found. IfSome found (λ rest. partial_of fields.new ≡ [])) }
{
    let len = bytes.iter().take_while(|byte| **byte != b',').count();
    let (word, rest) = bytes.split_at(len);
    if !is_word(word) {
        return Ok(None);
    }
    fields.push_field(word)?;
    Ok(Some(rest))
}

fn is_word(word: &[u8]) -> bool
    ensures { result ≡ true → IsWord word.now }
{
    if is_number(word) {
        return true;
    }
    is_truth(word)
}

fn is_number(word: &[u8]) -> bool
    ensures { result ≡ true → IsWord word.now }
{
    match number_of(word) {
        Some(_number) => true,
        None => false,
    }
}

fn is_truth(word: &[u8]) -> bool
    ensures { result ≡ true → IsWord word.now }
{
    match truth_of(word) {
        Some(_truth) => true,
        None => false,
    }
}

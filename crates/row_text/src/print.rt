//! How a row is written.
ghost use Rattle.std.specs.Prelude.{List, ◌≡◌, ◌+◌, ◌<◌, ◌≤◌, ◌++◌, ◌∷◌, length, take, OnOk, OnErr, IsOk};
ghost use Rattle.std.specs.Prelude.{vec_len, vec_capacity};
ghost use Rattle.std.specs.List.{flat_map, AllByRecursion};
ghost use Rattle.rows_core.specs.declared.value.Value.{Value};
ghost use Rattle.std.specs.Fmt.{signed_decimal};
ghost use Rattle.row_text.specs.RowSpelling.{byte_spelling, text_spelling, truth_spelling, value_spelling};
ghost use Rattle.row_text.specs.RowSpelling.{more_spelling, row_spelling, IsLoose, IsShort};

use itoa::Buffer;
use rows_core::{Memory, Row, Value};

/// No two rows share a spelling, with texts of any length.
pub fn one_spelling()
    ensures { (a b : List Value) → AllByRecursion IsLoose a → AllByRecursion IsLoose b →
        row_spelling a ≡ row_spelling b → a ≡ b }
{}

/// A row of at most 32 values has a spelling of at most 64,095 bytes.
pub fn longest_spelling()
    ensures { (row : List Value) → AllByRecursion IsLoose row → AllByRecursion IsShort row →
        length row ≤ 32 → length (row_spelling row) ≤ 64095 }
{}

/// A row of at most 32 values that a program holds has a spelling of at most 64,095 bytes. It reads the
/// values, and does nothing else.
pub fn row_is_short(row: &Row)
    requires { length row.now ≤ 32 }
    ensures { length (row_spelling row.now) ≤ 64095 }
{
    longest_spelling();
    read_values(row.values());
}

// The values of a row are numbers in i64, texts of at most 1,000 bytes, and truth values.
fn read_values(values: &[Value])
    ensures loose { AllByRecursion IsLoose values.now }
    ensures short { AllByRecursion IsShort values.now }
{
    if let [value, others @ ..] = values {
        read_value(value);
        read_values(others);
    }
}

fn read_value(value: &Value)
    ensures loose { IsLoose value.now }
    ensures short { IsShort value.now }
{
    match value {
        Value::Int(number) => {
            let _number = *number;
        }
        Value::Text(text) => {
            let _bytes = text.bytes();
        }
        Value::Bool(_) => {}
    }
}

/// Appends the row's one spelling. After `Memory`, `to` is as before. It succeeds where `to` has the length
/// of the spelling to spare.
pub fn print_row(row: &Row, to: &mut Vec<u8>) -> Result<(), Memory>
    ensures ok { OnOk result (to.new.items ≡ to.old.items ++ row_spelling row.now) }
    ensures err { OnErr result (to.new.items ≡ to.old.items) }
    ensures room { vec_len to.old + length (row_spelling row.now) ≤ vec_capacity to.old → IsOk result }
    ensures capacity { vec_capacity to.old ≤ vec_capacity to.new }
{
    let len = to.len();
    let appended = append_row(row.values(), to);
    if appended.is_err() {
        to.truncate(len);
    }
    appended
}

fn append_row(values: &[Value], to: &mut Vec<u8>) -> Result<(), Memory>
    ensures ok { OnOk result (to.new.items ≡ to.old.items ++ row_spelling values.now) }
    ensures start { take (vec_len to.old) to.new.items ≡ to.old.items }
    ensures full { OnErr result (vec_capacity to.old < vec_len to.old + length (row_spelling values.now)) }
    ensures capacity { vec_capacity to.old ≤ vec_capacity to.new }
{
    let [first, others @ ..] = values else {
        return Ok(());
    };
    append_value(first, to)?;
    append_more(others, to)
}

/// Appends each value behind a comma.
fn append_more(values: &[Value], to: &mut Vec<u8>) -> Result<(), Memory>
    ensures ok { OnOk result (to.new.items ≡ to.old.items ++ more_spelling values.now) }
    ensures start { take (vec_len to.old) to.new.items ≡ to.old.items }
    ensures full { OnErr result (vec_capacity to.old < vec_len to.old + length (more_spelling values.now)) }
    ensures capacity { vec_capacity to.old ≤ vec_capacity to.new }
{
    for value in values {
        append_next(value, to)?;
    }
    Ok(())
}

fn append_next(value: &Value, to: &mut Vec<u8>) -> Result<(), Memory>
    ensures ok { OnOk result (to.new.items ≡ to.old.items ++ 44 ∷ value_spelling value.now) }
    ensures start { take (vec_len to.old) to.new.items ≡ to.old.items }
    ensures full { OnErr result
        (vec_capacity to.old < vec_len to.old + length (44 ∷ value_spelling value.now)) }
    ensures capacity { vec_capacity to.old ≤ vec_capacity to.new }
{
    to.push(b',')?;
    append_value(value, to)
}

fn append_value(value: &Value, to: &mut Vec<u8>) -> Result<(), Memory>
    ensures ok { OnOk result (to.new.items ≡ to.old.items ++ value_spelling value.now) }
    ensures start { take (vec_len to.old) to.new.items ≡ to.old.items }
    ensures full { OnErr result (vec_capacity to.old < vec_len to.old + length (value_spelling value.now)) }
    ensures capacity { vec_capacity to.old ≤ vec_capacity to.new }
{
    match value {
        Value::Int(number) => append_number(*number, to),
        Value::Text(text) => append_text(text.bytes(), to),
        Value::Bool(truth) => append_truth(*truth, to),
    }
}

fn append_number(number: i64, to: &mut Vec<u8>) -> Result<(), Memory>
    ensures ok { OnOk result (to.new.items ≡ to.old.items ++ signed_decimal number) }
    ensures start { take (vec_len to.old) to.new.items ≡ to.old.items }
    ensures full { OnErr result (vec_capacity to.old < vec_len to.old + length (signed_decimal number)) }
    ensures capacity { vec_capacity to.old ≤ vec_capacity to.new }
{
    let mut buffer = Buffer::new();
    to.extend_from_slice(buffer.format(number).as_bytes())?;
    Ok(())
}

fn append_truth(truth: bool, to: &mut Vec<u8>) -> Result<(), Memory>
    ensures ok { OnOk result (to.new.items ≡ to.old.items ++ truth_spelling truth) }
    ensures start { take (vec_len to.old) to.new.items ≡ to.old.items }
    ensures full { OnErr result (vec_capacity to.old < vec_len to.old + length (truth_spelling truth)) }
    ensures capacity { vec_capacity to.old ≤ vec_capacity to.new }
{
    to.extend_from_slice(word_of(truth))?;
    Ok(())
}

fn word_of(truth: bool) -> &'static [u8]
    ensures { result.now ≡ truth_spelling truth }
{
    if truth { b"true" } else { b"false" }
}

fn append_text(text: &[u8], to: &mut Vec<u8>) -> Result<(), Memory>
    ensures ok { OnOk result (to.new.items ≡ to.old.items ++ text_spelling text.now) }
    ensures start { take (vec_len to.old) to.new.items ≡ to.old.items }
    ensures full { OnErr result (vec_capacity to.old < vec_len to.old + length (text_spelling text.now)) }
    ensures capacity { vec_capacity to.old ≤ vec_capacity to.new }
{
    to.push(b'"')?;
    append_text_bytes(text, to)?;
    to.push(b'"')?;
    Ok(())
}

fn append_text_bytes(text: &[u8], to: &mut Vec<u8>) -> Result<(), Memory>
    ensures ok { OnOk result (to.new.items ≡ to.old.items ++ flat_map byte_spelling text.now) }
    ensures start { take (vec_len to.old) to.new.items ≡ to.old.items }
    ensures full { OnErr result
        (vec_capacity to.old < vec_len to.old + length (flat_map byte_spelling text.now)) }
    ensures capacity { vec_capacity to.old ≤ vec_capacity to.new }
{
    for byte in text {
        append_text_byte(*byte, to)?;
    }
    Ok(())
}

fn append_text_byte(byte: u8, to: &mut Vec<u8>) -> Result<(), Memory>
    ensures ok { OnOk result (to.new.items ≡ to.old.items ++ byte_spelling byte) }
    ensures start { take (vec_len to.old) to.new.items ≡ to.old.items }
    ensures full { OnErr result (vec_capacity to.old < vec_len to.old + length (byte_spelling byte)) }
    ensures capacity { vec_capacity to.old ≤ vec_capacity to.new }
{
    if byte == b'"' || byte == b'\\' {
        to.push(b'\\')?;
    }
    to.push(byte)?;
    Ok(())
}

//! Row lines, read by kinds that are written first as `int,text`, and what their rows are printed as.

use anyhow::{Context, Result};
use row_text::{print_row, read_row};
use rows_core::{Column, Kind, Name, Row, Schema, Value};
use std::alloc::Global;

const NAMES: &[u8] = b"abcdefghijklmnopqrstuvwxyz";

/// The values of the row that is read, and behind an arrow what it is printed as.
pub fn line(alloc: Global, bytes: &[u8]) -> Result<String> {
    let mut parts = bytes.splitn(2, |byte| *byte == b' ');
    let kinds = std::str::from_utf8(parts.next().unwrap_or(b""))?;
    let schema = schema_of(alloc, kinds)?;
    line_of(alloc, parts.next().unwrap_or(b""), &schema)
}

fn line_of(alloc: Global, line: &[u8], schema: &Schema) -> Result<String> {
    let row = read_row(alloc, line, schema)?;
    shown(alloc, &row)
}

fn shown(alloc: Global, row: &Row) -> Result<String> {
    let mut printed = Vec::from_slice(alloc, b"before ")?;
    print_row(row, &mut printed)?;
    values_and_printed(alloc, row, &printed)
}

fn values_and_printed(alloc: Global, row: &Row, printed: &[u8]) -> Result<String> {
    let printed = std::str::from_utf8(printed)?;
    let shown = values_shown(alloc, row)?;
    Ok(format!(in alloc; "{shown} -> {printed}")?)
}

fn schema_of(alloc: Global, kinds: &str) -> Result<Schema> {
    Ok(Schema::new(columns_of(alloc, kinds)?)?)
}

fn columns_of(alloc: Global, kinds: &str) -> Result<Vec<Column>> {
    let mut columns = Vec::new(alloc);
    for (kind, letter) in kinds.split(',').zip(NAMES) {
        let kind = Kind::of(kind.as_bytes()).context("no kind")?;
        push_column(alloc, *letter, kind, &mut columns)?;
    }
    Ok(columns)
}

fn push_column(alloc: Global, letter: u8, kind: Kind, to: &mut Vec<Column>) -> Result<()> {
    let name = Name::new(alloc, &[letter])?;
    to.push(Column { name, kind })?;
    Ok(())
}

fn values_shown(alloc: Global, row: &Row) -> Result<String> {
    let mut shown = String::new(alloc);
    for value in row.values() {
        push_value(alloc, value, &mut shown)?;
    }
    Ok(shown)
}

fn push_value(alloc: Global, value: &Value, to: &mut String) -> Result<()> {
    if !to.is_empty() {
        to.push_str(", ")?;
    }
    match value {
        Value::Int(number) => push_number(alloc, *number, to),
        Value::Text(text) => push_text(text.bytes(), to),
        Value::Bool(truth) => push_truth(alloc, *truth, to),
    }
}

fn push_number(alloc: Global, number: i64, to: &mut String) -> Result<()> {
    to.push_str(format!(in alloc; "int {number}")?.as_str())?;
    Ok(())
}

fn push_truth(alloc: Global, truth: bool, to: &mut String) -> Result<()> {
    to.push_str(format!(in alloc; "truth {truth}")?.as_str())?;
    Ok(())
}

fn push_text(bytes: &[u8], to: &mut String) -> Result<()> {
    to.push_str("text ")?;
    to.push_str(std::str::from_utf8(bytes)?)?;
    Ok(())
}

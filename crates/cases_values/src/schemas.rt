//! Schemas, written as `name:kind,name:kind`.

use crate::rows;
use crate::texts::{copy_note, text_of};
use anyhow::{Context, Result};
use rows_core::{Column, Kind, Name, Schema};
use std::alloc::Global;

/// The count of the columns and the columns, read from a copy of the schema.
pub fn schema(alloc: Global, bytes: &[u8]) -> Result<String> {
    let schema = schema_of(alloc, std::str::from_utf8(bytes)?)?;
    copied(alloc, &schema)
}

fn copied(alloc: Global, schema: &Schema) -> Result<String> {
    let copy = schema.try_copy(alloc)?;
    shown(alloc, copy.columns(), schema.is_same(&copy))
}

fn shown(alloc: Global, columns: &[Column], is_same: bool) -> Result<String> {
    let shown = columns_shown(alloc, columns)?;
    let same = copy_note(is_same);
    let count = columns.len();
    Ok(format!(in alloc; "columns {count}: {shown}{same}")?)
}

/// Whether the schema that is written first admits the row that is written behind it.
pub fn admits(alloc: Global, bytes: &[u8]) -> Result<String> {
    let (schema, row) = std::str::from_utf8(bytes)?
        .split_once(' ')
        .unwrap_or(("", ""));
    let schema = schema_of(alloc, schema)?;
    let answer = if admits_row(alloc, &schema, row)? {
        "admitted"
    } else {
        "not admitted"
    };
    text_of(alloc, answer.as_bytes())
}

fn admits_row(alloc: Global, schema: &Schema, row: &str) -> Result<bool> {
    Ok(schema.admits(&rows::row_of(alloc, row)?))
}

pub fn schema_of(alloc: Global, text: &str) -> Result<Schema> {
    Ok(Schema::new(columns_of(alloc, text)?)?)
}

fn columns_of(alloc: Global, text: &str) -> Result<Vec<Column>> {
    let mut columns = Vec::new(alloc);
    for part in text.split(',') {
        push_column(alloc, part, &mut columns)?;
    }
    Ok(columns)
}

fn push_column(alloc: Global, part: &str, to: &mut Vec<Column>) -> Result<()> {
    if !part.is_empty() {
        let (name, kind) = part.split_once(':').context("a column without a kind")?;
        let name = Name::new(alloc, name.as_bytes())?;
        to.push(column_of(name, kind)?)?;
    }
    Ok(())
}

fn column_of(name: Name, kind: &str) -> Result<Column> {
    let kind = Kind::of(kind.as_bytes()).context("no kind")?;
    Ok(Column { name, kind })
}

fn columns_shown(alloc: Global, columns: &[Column]) -> Result<String> {
    let mut shown = String::new(alloc);
    for column in columns {
        push_shown(column, &mut shown)?;
    }
    Ok(shown)
}

fn push_shown(column: &Column, to: &mut String) -> Result<()> {
    if !to.is_empty() {
        to.push_str(",")?;
    }
    to.push_str(std::str::from_utf8(column.name.bytes())?)?;
    to.push_str(":")?;
    to.push_str(std::str::from_utf8(column.kind.word())?)?;
    Ok(())
}

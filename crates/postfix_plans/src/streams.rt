//! Streams, written as the kinds of their columns and the lines of their rows, with ` | ` between them.

use anyhow::{Context, Result};
use plan_core::Schemas;
use row_text::read_row;
use rows_core::{Column, Kind, Name, Row, Schema, Seq};
use std::alloc::Global;

const NAMES: &[u8] = b"abcd";

/// The kinds of each stream, and its rows.
#[derive(Drop)]
pub struct Streams {
    pub schemas: Schemas,
    pub rows: Seq<Seq<Row>>,
}

/// The streams that are written so; each has at most four columns.
pub fn streams_of(alloc: Global, text: &str) -> Result<Streams> {
    let mut schemas = Vec::new(alloc);
    let mut rows = Vec::new(alloc);
    for stream in text.split(" | ") {
        put_stream(alloc, stream, &mut schemas, &mut rows)?;
    }
    let schemas = Schemas {
        kinds: Seq::new(schemas),
    };
    let rows = Seq::new(rows);
    Ok(Streams { schemas, rows })
}

fn put_stream(
    alloc: Global,
    text: &str,
    schemas: &mut Vec<Seq<Kind>>,
    rows: &mut Vec<Seq<Row>>,
) -> Result<()> {
    let (kinds, lines) = text.split_once(' ').unwrap_or((text, ""));
    let kinds = kinds_of(alloc, kinds)?;
    let schema = schema_of(alloc, &kinds)?;
    rows.push(Seq::new(rows_of(alloc, lines, &schema)?))?;
    Ok(schemas.push(Seq::new(kinds))?)
}

/// Kinds, written as `int,text`.
pub fn kinds_of(alloc: Global, text: &str) -> Result<Vec<Kind>> {
    let mut kinds = Vec::new(alloc);
    for word in text.split(',') {
        kinds.push(Kind::of(word.as_bytes()).context("no kind")?)?;
    }
    Ok(kinds)
}

fn schema_of(alloc: Global, kinds: &[Kind]) -> Result<Schema> {
    let mut columns = Vec::new(alloc);
    for (kind, letter) in kinds.iter().zip(NAMES) {
        columns.push(Column {
            name: Name::new(alloc, &[*letter])?,
            kind: *kind,
        })?;
    }
    Ok(Schema::new(columns)?)
}

fn rows_of(alloc: Global, lines: &str, schema: &Schema) -> Result<Vec<Row>> {
    let mut rows = Vec::new(alloc);
    for line in lines.split_whitespace() {
        rows.push(read_row(alloc, line.as_bytes(), schema)?)?;
    }
    Ok(rows)
}

//! Streams.
ghost use Rattle.std.specs.Prelude.{◌≡◌, IfOk};
ghost use Rattle.serde_json.specs.View.{view};
ghost use Rattle.catalog_core.specs.Streams.{state_of, states_of};
ghost use Rattle.catalog_line.specs.CatalogData.{list_of, column_data, stream_data};

use crate::object::Object;
use crate::texts::{name_value, text_value};
use catalog_core::CatalogStream;
use plan_binder::Stream;
use rows_core::{Column, Memory};
use serde_json::{Value, json};
use std::alloc::Global;

/// The streams in the order of making.
pub(crate) fn streams_value(alloc: Global, streams: &[CatalogStream]) -> Result<Value, Memory>
    ensures { IfOk result (λ value. view value ≡ list_of stream_data (states_of streams.now)) }
{
    let mut items = Vec::with_capacity(alloc, streams.len())?;
    for stream in streams {
        items.push(stream_value(alloc, stream)?)?;
    }
    Ok(Value::Array(items))
}

#[tactic(auto, unfolding(crate::specs::CatalogData::stream_data))]
fn stream_value(alloc: Global, stream: &CatalogStream) -> Result<Value, Memory>
    ensures { IfOk result (λ value. view value ≡ stream_data (state_of stream.now)) }
{
    let columns = columns_value(alloc, stream.schema().columns())?;
    let name = name_value(alloc, stream.name())?;
    let object = Object::new(alloc)
        .value("columns", columns)?
        .count("extents", stream.extents().len() as u64)?
        .value("name", name)?
        .count("rows", stream.rows())?;
    Ok(object.into_value())
}

fn columns_value(alloc: Global, columns: &[Column]) -> Result<Value, Memory>
    ensures { IfOk result (λ value. view value ≡ list_of column_data columns.now) }
{
    let mut items = Vec::with_capacity(alloc, columns.len())?;
    for column in columns {
        items.push(column_value(alloc, column)?)?;
    }
    Ok(Value::Array(items))
}

fn column_value(alloc: Global, column: &Column) -> Result<Value, Memory>
    ensures { IfOk result (λ value. view value ≡ column_data column.now) }
{
    let name = name_value(alloc, &column.name)?;
    let kind = text_value(alloc, column.kind.word())?;
    let value = json!(in alloc; [name, kind])?;
    Ok(value)
}

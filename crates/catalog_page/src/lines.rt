//! Streams, programs and kept results as objects of the line.
ghost use Rattle.std.specs.Prelude.{◌≡◌, ◌+◌, ◌≤◌, map};
ghost use Rattle.serde_json.specs.View.{view};
ghost use Rattle.catalog_page.specs.Plain.{kept_of};
ghost use Rattle.catalog_page.specs.Tells.{Finds};
ghost use Rattle.catalog_page.specs.Told.{all_ok, at, column, cut, cuts, kept_in, program_in, schema, schema_of, stream_in};

use crate::catalogue::{Kept, LeafCut, ProgramLine, StreamLine};
use crate::key::Key;
use crate::refusal::Unread;
use crate::values::{
    items, items_at, member, name, name_at, number, number_at, positive_at, size_at, small_at,
    text, text_at,
};
use collector::Candidate;
use rows_core::{Column, Kind, Memory, Schema, SchemaRefusal, Seq};
use serde_json::Value;
use std::alloc::Global;

#[tactic(auto, unfolding(crate::specs::Told::stream_in))]
pub(crate) fn stream_of(alloc: Global, value: &Value) -> Result<StreamLine, Unread>
    ensures { Finds (λ s. s) result (stream_in (view value.now)) }
{
    let name = name_at(alloc, value, Key::Name)?;
    let schema = schema_at(alloc, value, Key::Columns)?;
    let extents = number_at(value, Key::Extents)?;
    let rows = number_at(value, Key::Rows)?;
    Ok(StreamLine {
        name,
        schema,
        extents,
        rows,
    })
}

#[tactic(auto, unfolding(crate::specs::Told::program_in))]
pub(crate) fn program_of(alloc: Global, value: &Value) -> Result<ProgramLine, Unread>
    ensures { Finds (λ p. p) result (program_in (view value.now)) }
{
    let name = name_at(alloc, value, Key::Name)?;
    let text = text_at(alloc, value, Key::Plan)?;
    Ok(ProgramLine { name, text })
}

/// A kept result, of which a collection at the tick behind this one goes by its standing.
#[tactic(auto, unfolding(crate::specs::Told::kept_in))]
pub(crate) fn kept_at(alloc: Global, tick: u32, value: &Value) -> Result<Kept, Unread>
    ensures { Finds kept_of result (kept_in (tick + 1) (view value.now)) }
{
    let id = small_at(value, Key::Id)?;
    let size = size_at(value, Key::Bytes)?;
    let machine = positive_at(value, Key::Machine)?;
    let uses = positive_at(value, Key::Uses)?;
    let last = small_at(value, Key::Last)?;
    let made = small_at(value, Key::Made)?;
    let cuts = cuts_at(alloc, value, Key::Cuts)?;
    let key = text_at(alloc, value, Key::Key)?;
    let idle = (u64::from(tick) + 1).saturating_sub(u64::from(last));
    Ok(Kept {
        standing: Candidate::of(id, size, idle, uses, machine),
        cuts,
        key,
        machine,
        uses,
        last,
        made,
    })
}

// From 1 to 32 columns with different names.
#[tactic(auto, unfolding(crate::specs::Told::at))]
fn schema_at(alloc: Global, object: &Value, key: Key) -> Result<Schema, Unread>
    ensures { Finds (λ s. s) result (at key schema (view object.now)) }
{
    let value = member(object, key)?;
    schema(alloc, key, value)
}

#[tactic(auto, unfolding(crate::specs::Told::schema))]
fn schema(alloc: Global, key: Key, value: &Value) -> Result<Schema, Unread>
    ensures { Finds (λ s. s) result (schema key (view value.now)) }
{
    let values = items(key, value)?;
    let columns = all_columns(alloc, key, values)?;
    schema_with(key, columns)
}

fn all_columns(alloc: Global, key: Key, values: &[Value]) -> Result<Vec<Column>, Unread>
    ensures { Finds (λ columns. columns.items) result (all_ok (map (column key) (map view values.now))) }
{
    columns_of(alloc, key, values)
}

#[tactic(auto, unfolding(crate::specs::Told::schema_of))]
fn schema_with(key: Key, columns: Vec<Column>) -> Result<Schema, Unread>
    ensures { Finds (λ s. s) result (schema_of key columns.items) }
{
    match Schema::new(columns) {
        Ok(schema) => Ok(schema),
        Err(SchemaRefusal::Empty) => Err(Unread::Missing(key)),
        Err(SchemaRefusal::Duplicate) => Err(Unread::Missing(key)),
        Err(SchemaRefusal::TooMany) => Err(Unread::Missing(key)),
    }
}

#[tactic(auto, using(crate::proofs::ItemLoops::reading))]
fn columns_of(alloc: Global, key: Key, values: &[Value]) -> Result<Vec<Column>, Unread>
    ensures { Finds (λ columns. columns.items) result (all_ok (map (λ v. column key (view v)) values.now)) }
{
    let mut columns = Vec::with_capacity(alloc, values.len())?;
    for value in values {
        let column = column(alloc, key, value)?;
        columns.push(column)?;
    }
    Ok(columns)
}

#[tactic(auto, unfolding(crate::specs::Told::column))]
fn column(alloc: Global, key: Key, value: &Value) -> Result<Column, Unread>
    ensures { Finds (λ c. c) result (column key (view value.now)) }
{
    let [first, second] = items(key, value)? else {
        return Err(Unread::Missing(key));
    };
    let name = name(alloc, key, first)?;
    let word = text(key, second)?;
    match Kind::of(word.as_bytes()) {
        Some(kind) => Ok(Column { name, kind }),
        None => Err(Unread::Missing(key)),
    }
}

#[tactic(auto, unfolding(crate::specs::Told::at))]
fn cuts_at(alloc: Global, object: &Value, key: Key) -> Result<Seq<LeafCut>, Unread>
    ensures { Finds (λ c. c) result (at key cuts (view object.now)) }
{
    let value = member(object, key)?;
    cuts(alloc, key, value)
}

#[tactic(auto, unfolding(crate::specs::Told::cuts))]
fn cuts(alloc: Global, key: Key, value: &Value) -> Result<Seq<LeafCut>, Unread>
    ensures { Finds (λ c. c) result (cuts key (view value.now)) }
{
    let values = items(key, value)?;
    let cuts = all_cuts(alloc, key, values)?;
    Ok(Seq::new(cuts))
}

fn all_cuts(alloc: Global, key: Key, values: &[Value]) -> Result<Vec<LeafCut>, Unread>
    ensures { Finds (λ cuts. cuts.items) result (all_ok (map (cut key) (map view values.now))) }
{
    cuts_of(alloc, key, values)
}

#[tactic(auto, using(crate::proofs::ItemLoops::reading))]
fn cuts_of(alloc: Global, key: Key, values: &[Value]) -> Result<Vec<LeafCut>, Unread>
    ensures { Finds (λ cuts. cuts.items) result (all_ok (map (λ v. cut key (view v)) values.now)) }
{
    let mut cuts = Vec::with_capacity(alloc, values.len())?;
    for value in values {
        let cut = cut(alloc, key, value)?;
        cuts.push(cut)?;
    }
    Ok(cuts)
}

#[tactic(auto, unfolding(crate::specs::Told::cut))]
fn cut(alloc: Global, key: Key, value: &Value) -> Result<LeafCut, Unread>
    ensures { Finds (λ c. c) result (cut key (view value.now)) }
{
    let [stream, from, to] = items(key, value)? else {
        return Err(Unread::Missing(key));
    };
    let stream = name(alloc, key, stream)?;
    let from = number(key, from)?;
    let to = number(key, to)?;
    Ok(LeafCut { stream, from, to })
}

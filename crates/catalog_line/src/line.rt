//! The whole line.
ghost use Rattle.std.specs.Prelude.{◌≡◌, IfOk};
ghost use Rattle.serde_json.specs.View.{view};
ghost use Rattle.catalog_core.specs.Catalogs.{table_of};
ghost use Rattle.catalog_line.specs.CatalogData.{catalog_data};
ghost use Rattle.catalog_line.specs.CatalogText.{catalog_text};

use crate::entries::entries_value;
use crate::object::Object;
use crate::programs::programs_value;
use crate::streams::streams_value;
use catalog_core::Catalog;
use rows_core::{Memory, Seq, Text};
use serde_json::Value;
use std::alloc::Global;

/// The catalogue as one line of JSON, without its LF. The layout is this project's own: no space, the keys of
/// each object in byte order, strings and numbers as RFC 8259 has them, with the shortest escapes. `Memory`
/// where memory was asked for and refused.
pub fn catalog_line(alloc: Global, catalog: &Catalog) -> Result<Text, Memory>
    ensures { IfOk result (λ line. line ≡ catalog_text (table_of catalog.now)) }
{
    let value = catalog_value(alloc, catalog)?;
    Ok(Seq::new(value.to_vec(alloc)?))
}

#[tactic(auto, unfolding(crate::specs::CatalogData::catalog_data))]
fn catalog_value(alloc: Global, catalog: &Catalog) -> Result<Value, Memory>
    ensures { IfOk result (λ value. view value ≡ catalog_data (table_of catalog.now)) }
{
    let entries = entries_value(alloc, catalog.streams(), catalog.entries())?;
    let programs = programs_value(alloc, catalog.programs())?;
    let streams = streams_value(alloc, catalog.streams())?;
    let object = Object::new(alloc)
        .value("entries", entries)?
        .value("programs", programs)?
        .value("streams", streams)?
        .count("tick", catalog.tick() as u64)?;
    Ok(object.into_value())
}

//! Kept results.
ghost use Rattle.std.specs.Prelude.{◌≡◌, ◌<◌, ◌++◌, codes, length, map, IfOk, OnOk};
ghost use Rattle.std.specs.List.{AllByRecursion, zip};
ghost use Rattle.serde_json.specs.Data.{member, no_members};
ghost use Rattle.serde_json.specs.View.{members_view, view};
ghost use Rattle.catalog_core.specs.Streams.{states_of};
ghost use Rattle.catalog_line.specs.CatalogData.{count, list_of, cut_data, cuts_data, name_at, entry_data};
ghost use Rattle.catalog_line.specs.Readable.{HasStreams};

use crate::cuts::cut_value;
use crate::object::Object;
use crate::texts::digest_value;
use catalog_core::CatalogStream;
use catalog_types::Entry;
use plan_binder::Stream;
use rows_core::{Cut, Memory};
use serde_json::Value;
use std::alloc::Global;

/// The kept results by their ids, which are of plans over these streams.
pub(crate) fn entries_value(
    alloc: Global,
    streams: &[CatalogStream],
    entries: &[Entry],
) -> Result<Value, Memory>
    requires { AllByRecursion (HasStreams (states_of streams.now)) entries.now }
    ensures { IfOk result (λ value. view value
        ≡ list_of (entry_data (states_of streams.now)) entries.now) }
{
    let mut items = Vec::with_capacity(alloc, entries.len())?;
    for entry in entries {
        items.push(entry_value(alloc, streams, entry)?)?;
    }
    Ok(Value::Array(items))
}

#[tactic(auto, unfolding(crate::specs::CatalogData::entry_data))]
fn entry_value(alloc: Global, streams: &[CatalogStream], entry: &Entry) -> Result<Value, Memory>
    requires { HasStreams (states_of streams.now) entry.now }
    ensures { IfOk result (λ value. view value ≡ entry_data (states_of streams.now) entry.now) }
{
    let leaves = entry.plan.leaves(alloc)?;
    let cuts = cuts_value(alloc, streams, &leaves, entry.cuts.items())?;
    let key = digest_value(alloc, &entry.program)?;
    let object = file_object(alloc, entry, cuts)?;
    let object = object
        .count("id", entry.id as u64)?
        .value("key", key)?
        .count("last", entry.last as u64)?
        .count("machine", entry.machine as u64)?
        .count("made", entry.made as u64)?
        .count("uses", entry.uses as u64)?;
    Ok(object.into_value())
}

// The length and the number of the file, with these cuts.
fn file_object(alloc: Global, entry: &Entry, cuts: Value) -> Result<Object, Memory>
    ensures { IfOk result (λ object. members_view object.members.entries
        ≡ member (codes "bytes") (count entry.now.file.len) (member (codes "cuts") (view cuts)
        (member (codes "file") (count entry.now.file.file) no_members))) }
{
    let object = Object::new(alloc)
        .count("bytes", entry.file.len)?
        .value("cuts", cuts)?
        .count("file", entry.file.file)?;
    Ok(object)
}

// Each cut with the name of its leaf's stream.
fn cuts_value(
    alloc: Global,
    streams: &[CatalogStream],
    leaves: &[u32],
    cuts: &[Cut],
) -> Result<Value, Memory>
    requires { AllByRecursion (λ leaf. leaf < length streams.now) leaves.now }
    ensures { IfOk result (λ value. view value
        ≡ cuts_data (map (name_at (states_of streams.now)) leaves.now) cuts.now) }
{
    let mut items = Vec::with_capacity(alloc, cuts.len())?;
    put_cuts(alloc, streams, leaves, cuts, &mut items)?;
    Ok(Value::Array(items))
}

// Puts the leaves behind the others.
fn put_cuts(
    alloc: Global,
    streams: &[CatalogStream],
    leaves: &[u32],
    cuts: &[Cut],
    to: &mut Vec<Value>,
) -> Result<(), Memory>
    requires { AllByRecursion (λ leaf. leaf < length streams.now) leaves.now }
    ensures { OnOk result (map view to.new.items ≡ map view to.old.items
        ++ map cut_data (zip (map (name_at (states_of streams.now)) leaves.now) cuts.now)) }
{
    let [leaf, leaves @ ..] = leaves else {
        return Ok(());
    };
    let [cut, cuts @ ..] = cuts else {
        return Ok(());
    };
    let stream = &streams[*leaf as usize];
    to.push(cut_value(alloc, stream.name(), cut)?)?;
    put_cuts(alloc, streams, leaves, cuts, to)
}

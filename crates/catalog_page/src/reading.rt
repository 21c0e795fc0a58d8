//! The whole line.
ghost use Rattle.std.specs.Prelude.{◌≡◌, ◌+◌, map};
ghost use Rattle.serde_json.specs.View.{view};
ghost use Rattle.catalog_page.specs.declared.key.Key.TheVariants as key;
ghost use Rattle.catalog_page.specs.Plain.{kept_of, catalogue_of};
ghost use Rattle.serde_json.specs.Read.{read};
ghost use Rattle.catalog_page.specs.declared.refusal.ReadRefusal.TheVariants.{NotJson};
ghost use Rattle.catalog_page.specs.Tells.{Finds, Tells, located};
ghost use Rattle.catalog_page.specs.Told.{all_ok, at, or_else, small, items, kept_in, program_in, stream_in};
ghost use Rattle.catalog_page.specs.Told.{each_in, catalogue_in, missing, missing_in, told};

use crate::catalogue::{Catalogue, Kept, ProgramLine, StreamLine};
use crate::key::Key;
use crate::lines::{kept_at, program_of, stream_of};
use crate::refusal::{ReadRefusal, Unread};
use crate::values::{items_at, small_at};
use serde_json::Value;
use std::alloc::Global;
use std::str;

/// The catalogue that a line of the answer `catalog` tells, with its kept results in the line's order. `NotJson`
/// exactly where the bytes are no UTF-8 or no JSON that nests at most 127 deep; else `Missing` or `MissingIn` with
/// the first key that has no value, or one that isn't what it is to be, in the order of `told`; keys that the page
/// doesn't need are passed over. `Memory` where memory was asked for and refused.
pub(crate) fn read(alloc: Global, line: &str) -> Result<Catalogue, ReadRefusal>
    ensures { Tells catalogue_of result (told line.now) }
{
    let value = json(alloc, line)?;
    catalogue_at(alloc, &value)
}

fn json(alloc: Global, line: &str) -> Result<Value, ReadRefusal>
    ensures { Tells view result (or_else NotJson (read line.now)) }
{
    match Value::from_str(alloc, line) {
        Ok(value) => Ok(value),
        Err(error) if error.is_memory() => Err(ReadRefusal::Memory),
        Err(_) => Err(ReadRefusal::NotJson),
    }
}

#[tactic(auto, unfolding(crate::specs::Told::catalogue_in))]
fn catalogue_at(alloc: Global, value: &Value) -> Result<Catalogue, ReadRefusal>
    ensures { Tells catalogue_of result (catalogue_in (view value.now)) }
{
    let tick = tick_of(value)?;
    let streams = streams_of(alloc, value)?;
    let programs = programs_of(alloc, value)?;
    let results = results_of(alloc, tick, value)?;
    Ok(Catalogue {
        streams,
        programs,
        results,
        tick,
    })
}

fn tick_of(value: &Value) -> Result<u32, ReadRefusal>
    ensures { Tells (λ n. n) result (missing (at key.Tick small (view value.now))) }
{
    match small_at(value, Key::Tick) {
        Ok(tick) => Ok(tick),
        Err(Unread::Missing(key)) => Err(ReadRefusal::Missing(key)),
        Err(Unread::Memory) => Err(ReadRefusal::Memory),
    }
}

fn list_at(value: &Value, list: Key) -> Result<&[Value], ReadRefusal>
    ensures { Tells (λ values. map view values.now) result (missing (at list items (view value.now))) }
{
    match items_at(value, list) {
        Ok(values) => Ok(values),
        Err(Unread::Missing(key)) => Err(ReadRefusal::Missing(key)),
        Err(Unread::Memory) => Err(ReadRefusal::Memory),
    }
}

// Where what keeps an item from being read is of this list.
fn located<T: Drop>(list: Key, found: Result<T, Unread>) -> Result<T, ReadRefusal>
    ensures { result ≡ located list found }
{
    match found {
        Ok(items) => Ok(items),
        Err(Unread::Missing(key)) => Err(ReadRefusal::MissingIn { list, key }),
        Err(Unread::Memory) => Err(ReadRefusal::Memory),
    }
}

#[tactic(auto, unfolding(crate::specs::Told::each_in))]
fn streams_of(alloc: Global, value: &Value) -> Result<Vec<StreamLine>, ReadRefusal>
    ensures { Tells (λ v. v.items) result (each_in key.Streams stream_in (view value.now)) }
{
    let values = list_at(value, Key::Streams)?;
    let found = all_streams(alloc, values);
    located(Key::Streams, found)
}

#[tactic(auto, using(crate::proofs::ItemLoops::reading))]
fn each_stream(alloc: Global, values: &[Value]) -> Result<Vec<StreamLine>, Unread>
    ensures { Finds (λ v. v.items) result (all_ok (map (λ v. stream_in (view v)) values.now)) }
{
    let mut streams = Vec::with_capacity(alloc, values.len())?;
    for value in values {
        let stream = stream_of(alloc, value)?;
        streams.push(stream)?;
    }
    Ok(streams)
}

#[tactic(auto, unfolding(crate::specs::Told::each_in))]
fn programs_of(alloc: Global, value: &Value) -> Result<Vec<ProgramLine>, ReadRefusal>
    ensures { Tells (λ v. v.items) result (each_in key.Programs program_in (view value.now)) }
{
    let values = list_at(value, Key::Programs)?;
    let found = all_programs(alloc, values);
    located(Key::Programs, found)
}

#[tactic(auto, using(crate::proofs::ItemLoops::reading))]
fn each_program(alloc: Global, values: &[Value]) -> Result<Vec<ProgramLine>, Unread>
    ensures { Finds (λ v. v.items) result (all_ok (map (λ v. program_in (view v)) values.now)) }
{
    let mut programs = Vec::with_capacity(alloc, values.len())?;
    for value in values {
        let program = program_of(alloc, value)?;
        programs.push(program)?;
    }
    Ok(programs)
}

#[tactic(auto, unfolding(crate::specs::Told::each_in))]
fn results_of(alloc: Global, tick: u32, value: &Value) -> Result<Vec<Kept>, ReadRefusal>
    ensures { Tells (λ v. map kept_of v.items) result
        (each_in key.Entries (kept_in (tick + 1)) (view value.now)) }
{
    let values = list_at(value, Key::Entries)?;
    let found = all_results(alloc, tick, values);
    located(Key::Entries, found)
}

#[tactic(auto, using(crate::proofs::ItemLoops::reading))]
fn each_result(alloc: Global, tick: u32, values: &[Value]) -> Result<Vec<Kept>, Unread>
    ensures { Finds (λ v. map kept_of v.items) result
        (all_ok (map (λ v. kept_in (tick + 1) (view v)) values.now)) }
{
    let mut results = Vec::with_capacity(alloc, values.len())?;
    for value in values {
        let kept = kept_at(alloc, tick, value)?;
        results.push(kept)?;
    }
    Ok(results)
}

fn all_streams(alloc: Global, values: &[Value]) -> Result<Vec<StreamLine>, Unread>
    ensures { Finds (λ v. v.items) result (all_ok (map stream_in (map view values.now))) }
{
    each_stream(alloc, values)
}

fn all_programs(alloc: Global, values: &[Value]) -> Result<Vec<ProgramLine>, Unread>
    ensures { Finds (λ v. v.items) result (all_ok (map program_in (map view values.now))) }
{
    each_program(alloc, values)
}

fn all_results(alloc: Global, tick: u32, values: &[Value]) -> Result<Vec<Kept>, Unread>
    ensures { Finds (λ v. map kept_of v.items) result
        (all_ok (map (kept_in (tick + 1)) (map view values.now))) }
{
    each_result(alloc, tick, values)
}

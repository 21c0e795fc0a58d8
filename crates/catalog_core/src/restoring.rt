//! The parts of a checkpoint beside its streams: whether each is what it is in every table.
ghost use Rattle.std.specs.Prelude.{◌≡◌, ◌↔◌, map, None, IsTrue, IfSome, IfOk};
ghost use Rattle.std.specs.List.{AllByRecursion};
ghost use Rattle.plan_spelling.specs.Spelling.{HasPlanSpelling};
ghost use Rattle.entry_table.specs.AreKept.{AreKept, IsPast};
ghost use Rattle.entry_table.specs.Keyed.{with_keys};
ghost use Rattle.entry_table.specs.Tables.{kept_of};
ghost use Rattle.entry_table.specs.Work.{kept_with};
ghost use Rattle.catalog_core.specs.Programs.{kinds_of_streams, AreByName, IsProgram};
ghost use Rattle.catalog_core.specs.Restoring.{AreNumbers, ArePrograms, AreResults};
ghost use Rattle.catalog_core.specs.Results.{IsEntryOver, digests_of};
ghost use Rattle.catalog_core.specs.Streams.{states_of};

use crate::chains::StreamChains;
use crate::own_files::have_own_files;
use crate::program::is_program;
use crate::programs::{MAX_PROGRAMS, is_below};
use crate::restored_streams::RestoredStreams;
use crate::results::is_over;
use crate::stream::CatalogStream;
use catalog_types::{Entry, Program};
use entry_table::EntryTable;
use plan_core::Schemas;
use rows_core::limits::FILE_END;
use rows_core::{Memory, Seq};
use std::alloc::Global;

/// Whether these may be the next numbers of files and of kept results.
pub(crate) fn are_numbers(next_file: u64, next_id: u64) -> bool
    ensures { IsTrue result ↔ AreNumbers next_file next_id }
{
    0 < next_file && next_file <= FILE_END && next_id <= next_file
}

/// Whether these may be the programs of a table with these streams.
pub(crate) fn are_programs(
    alloc: Global,
    streams: &[CatalogStream],
    schemas: &Schemas,
    programs: &[Program],
) -> Result<bool, Memory>
    requires { schemas.now.kinds ≡ kinds_of_streams (states_of streams.now) }
    ensures { IfOk result (λ are. IsTrue are ↔ ArePrograms (states_of streams.now) programs.now) }
{
    if programs.len() > MAX_PROGRAMS || !are_by_name(programs) {
        return Ok(false);
    }
    are_over_streams(alloc, streams, schemas, programs)
}

/// These as the kept results of a table at this tick, with this next file, this next id and these streams. Their
/// keys are made anew from their plans and cuts. `None` exactly where they can't be that.
pub(crate) fn restored_results(
    alloc: Global,
    tick: u32,
    next_file: u64,
    next_id: u64,
    restored: &RestoredStreams,
    entries: Seq<Entry>,
) -> Result<Option<EntryTable>, Memory>
    ensures kept { IfOk result (λ results. IfSome results (λ table. kept_of table ≡ kept_with next_id
        (map (with_keys (digests_of (states_of restored.now.streams.items))) entries))) }
    ensures are { IfOk result (λ results. IfSome results
        (λ _. AreResults tick next_file (states_of restored.now.streams.items) entries)) }
    ensures none { IfOk result (λ results. results ≡ None
        → AreResults tick next_file (states_of restored.now.streams.items) entries
        → AreKept (kept_with next_id
        (map (with_keys (digests_of (states_of restored.now.streams.items))) entries)) → ⊥) }
{
    let streams = restored.streams.as_slice();
    if !are_results(alloc, tick, next_file, restored, entries.items())? {
        return Ok(None);
    }
    EntryTable::restored(alloc, &StreamChains::new(streams), next_id, entries)
}

// Whether they are in the byte order of their names, which differ.
fn are_by_name(programs: &[Program]) -> bool
    ensures { IsTrue result ↔ AreByName programs.now }
{
    match programs {
        [program, next, ..] => {
            is_below(&program.name, &next.name) && are_by_name(&programs[1..])
        }
        _ => true,
    }
}

// Whether each is a program over the streams.
fn are_over_streams(
    alloc: Global,
    streams: &[CatalogStream],
    schemas: &Schemas,
    programs: &[Program],
) -> Result<bool, Memory>
    requires { schemas.now.kinds ≡ kinds_of_streams (states_of streams.now) }
    ensures { IfOk result (λ are. IsTrue are
        ↔ AllByRecursion (IsProgram (states_of streams.now)) programs.now) }
{
    let [program, others @ ..] = programs else {
        return Ok(true);
    };
    if is_program(alloc, streams, schemas, program)? {
        are_over_streams(alloc, streams, schemas, others)
    } else {
        Ok(false)
    }
}

// Whether each is of a plan and cuts over the streams, made and used at or before the tick, and has a file of its
// own. The plans of such results have spellings.
fn are_results(
    alloc: Global,
    tick: u32,
    next_file: u64,
    restored: &RestoredStreams,
    entries: &[Entry],
) -> Result<bool, Memory>
    ensures are { IfOk result (λ are. IsTrue are
        ↔ AreResults tick next_file (states_of restored.now.streams.items) entries.now) }
    ensures spelled { IfOk result (λ are. IsTrue are
        → AllByRecursion (λ e. HasPlanSpelling e.plan) entries.now) }
{
    let streams = restored.streams.as_slice();
    let are = are_past(tick, entries)
        && are_entries_over(alloc, streams, &restored.schemas, entries)?
        && have_own_files(alloc, next_file, streams, entries)?;
    Ok(are)
}

// Whether each was made at or before its last use, which was at or before the tick.
fn are_past(tick: u32, entries: &[Entry]) -> bool
    ensures { IsTrue result ↔ AllByRecursion (IsPast tick) entries.now }
{
    let mut rest = entries;
    while let [entry, others @ ..] = rest {
        if entry.made > entry.last || entry.last > tick {
            return false;
        }
        rest = others;
    }
    true
}

// Whether each is of a plan and cuts over the streams.
fn are_entries_over(
    alloc: Global,
    streams: &[CatalogStream],
    schemas: &Schemas,
    entries: &[Entry],
) -> Result<bool, Memory>
    requires { schemas.now.kinds ≡ kinds_of_streams (states_of streams.now) }
    ensures over { IfOk result (λ are. IsTrue are
        ↔ AllByRecursion (IsEntryOver (states_of streams.now)) entries.now) }
    ensures spelled { IfOk result (λ are. IsTrue are
        → AllByRecursion (λ e. HasPlanSpelling e.plan) entries.now) }
{
    let mut rest = entries;
    while let [entry, others @ ..] = rest {
        if !is_over(alloc, streams, schemas, &entry.plan, entry.cuts.items())? {
            return Ok(false);
        }
        rest = others;
    }
    Ok(true)
}

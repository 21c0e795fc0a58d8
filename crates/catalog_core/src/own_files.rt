//! The files of a checkpoint.
ghost use Rattle.std.specs.Prelude.{◌≡◌, ◌↔◌, ◌++◌, map, IsTrue, IfOk, OnOk};
ghost use Rattle.std.specs.List.{AllByRecursion};
ghost use Rattle.std.specs.List.Sorted.{IsStrictlyIncreasing};
ghost use Rattle.catalog_core.specs.OwnFiles.{HaveOwnFiles, IsGiven, extent_files, result_files, files_in};
ghost use Rattle.catalog_core.specs.Streams.{states_of};

use crate::stream::CatalogStream;
use catalog_types::{Entry, Extent};
use rows_core::Memory;
use std::alloc::Global;

/// Whether each file of these extents and kept results was given before the next one, and no two are the same.
/// The numbers are sorted once.
pub(crate) fn have_own_files(
    alloc: Global,
    next_file: u64,
    streams: &[CatalogStream],
    entries: &[Entry],
) -> Result<bool, Memory>
    ensures { IfOk result (λ have. IsTrue have
        ↔ HaveOwnFiles next_file (states_of streams.now) entries.now) }
{
    let mut files = files_in(alloc, streams, entries)?;
    files.sort_unstable();
    Ok(rise_below(next_file, files.as_slice()))
}

// The files of these extents and kept results, those of extents first.
pub(crate) fn files_in(
    alloc: Global,
    streams: &[CatalogStream],
    entries: &[Entry],
) -> Result<Vec<u64>, Memory>
    ensures { IfOk result (λ files. files.items ≡ files_in (states_of streams.now) entries.now) }
{
    let mut files = files_of_streams(alloc, streams)?;
    push_result_files(&mut files, entries)?;
    Ok(files)
}

// The files of all extents.
fn files_of_streams(alloc: Global, streams: &[CatalogStream]) -> Result<Vec<u64>, Memory>
    ensures { IfOk result (λ files. files.items ≡ extent_files (states_of streams.now)) }
{
    let mut files = Vec::new(alloc);
    for stream in streams {
        push_extent_files(&mut files, stream.extents())?;
    }
    Ok(files)
}

fn push_extent_files(files: &mut Vec<u64>, extents: &[Extent]) -> Result<(), Memory>
    ensures { OnOk result (files.new.items
        ≡ files.old.items ++ map (λ extent. extent.file.file) extents.now) }
{
    files.reserve(extents.len())?;
    for extent in extents {
        files.push(extent.file.file)?;
    }
    Ok(())
}

fn push_result_files(files: &mut Vec<u64>, entries: &[Entry]) -> Result<(), Memory>
    ensures { OnOk result (files.new.items ≡ files.old.items ++ result_files entries.now) }
{
    files.reserve(entries.len())?;
    for entry in entries {
        files.push(entry.file.file)?;
    }
    Ok(())
}

// Whether each is above the one before it, the first above 0, and all below the next one.
fn rise_below(next: u64, files: &[u64]) -> bool
    ensures { IsTrue result ↔ (IsStrictlyIncreasing files.now × AllByRecursion (IsGiven next) files.now) }
{
    let mut last = 0;
    for file in files {
        if *file <= last || next <= *file {
            return false;
        }
        last = *file;
    }
    true
}

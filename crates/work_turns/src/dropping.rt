//! The kept results that work drops.
ghost use Rattle.std.specs.Prelude.{◌≡◌, IfOk};
ghost use Rattle.work_turns.specs.Ends.{files_among, those_among};

use catalog_types::Entry;
use entry_table::is_among;
use rows_core::Memory;
use std::alloc::Global;

/// Kept results that are dropped: their ids, and the numbers of their files, in the same order.
#[derive(Drop)]
pub(crate) struct Dropped {
    pub ids: Vec<u32>,
    pub files: Vec<u64>,
}

/// Those of the entries that were lost, in the order of the entries.
pub(crate) fn dropped_results(
    alloc: Global,
    entries: &[Entry],
    lost: &[u32],
) -> Result<Dropped, Memory>
    ensures ids { IfOk result
        (λ dropped. dropped.ids.items ≡ those_among lost.now entries.now) }
    ensures files { IfOk result
        (λ dropped. dropped.files.items ≡ files_among lost.now entries.now) }
{
    let mut ids = Vec::new(alloc);
    let mut files = Vec::new(alloc);
    for entry in entries {
        if is_among(lost, entry.id) {
            ids.push(entry.id)?;
            files.push(entry.file.file)?;
        }
    }
    Ok(Dropped { ids, files })
}

//! What a collection records.
ghost use Rattle.std.specs.Prelude.{◌≡◌, ◌<◌, ◌↔◌, IfOk, IsErrOf};
ghost use Rattle.catalog_core.specs.Catalogs.{table_of};
ghost use Rattle.rows_core.specs.Limits.{most_ticks};
ghost use Rattle.planning.specs.Collecting.{IsCollectionPlan};

use crate::collected_files::{bytes_of, files_of};
use crate::collection_refusal::CollectionRefusal;
use catalog_core::Catalog;
use catalog_types::Change;
use collector::victims;
use record_codec::{small_changes, spell_change};
use rows_core::limits::MAX_TICKS;
use rows_core::{Memory, Seq};
use std::alloc::Global;

/// For so many ticks a new result may not go.
const NO_LEASE: u32 = 0;

/// A collection that is to be recorded.
#[derive(Drop)]
pub struct CollectionPlan {
    /// The change of these ids, and the bytes that are recorded of it.
    pub change: Change,
    pub body: Vec<u8>,
    /// The ids of the kept results that go, in the order of going.
    pub ids: Vec<u32>,
    /// The numbers of their files, in the same order.
    pub files: Vec<u64>,
    /// How many bytes these files have together.
    pub bytes: u64,
}

/// What a collection of at least `reclaim` bytes records over a catalogue: the kept results that go are those
/// that `victims` gives at the next tick, but for those with a held id, in the order of going. Nothing is
/// leased. The files that it leaves to be removed are those of the results that go. `Commands` exactly where no more commands may be
/// recorded, else `Memory` where memory was asked for and refused.
pub fn plan_collection(
    alloc: Global,
    catalog: &Catalog,
    reclaim: u64,
    held: &[u32],
) -> Result<CollectionPlan, CollectionRefusal>
    ensures ok { IfOk result (IsCollectionPlan (table_of catalog.now) held.now reclaim) }
    ensures commands { IsErrOf result CollectionRefusal.Commands
        ↔ ((table_of catalog.now).tick ≡ most_ticks) }
{
    if catalog.tick() == MAX_TICKS {
        return Err(CollectionRefusal::Commands);
    }
    let plan = collect_next(alloc, catalog, reclaim, held)?;
    Ok(plan)
}

// The collection as the next command.
fn collect_next(
    alloc: Global,
    catalog: &Catalog,
    reclaim: u64,
    held: &[u32],
) -> Result<CollectionPlan, Memory>
    requires { (table_of catalog.now).tick < most_ticks }
    ensures { IfOk result (IsCollectionPlan (table_of catalog.now) held.now reclaim) }
{
    small_changes();
    let ids = victims(
        alloc,
        catalog.entries(),
        catalog.tick() + 1,
        reclaim,
        held,
        NO_LEASE,
    )?;
    let files = files_of(alloc, catalog, &ids)?;
    let bytes = bytes_of(catalog, &ids);
    let recorded = Vec::from_slice(alloc, &ids)?;
    let change = Change::Collect {
        ids: Seq::new(recorded),
    };
    let body = spell_change(alloc, &change)?;
    Ok(CollectionPlan {
        change,
        body,
        ids,
        files,
        bytes,
    })
}

//! The spelling of a checkpoint.
ghost use Rattle.std.specs.Prelude.{◌≡◌, ◌<◌, IfOk, length};
ghost use Rattle.catalog_types.specs.declared.change.Change.TheVariants.{Checkpoint};
ghost use Rattle.record_codec.specs.Spelling.{change_spelling};
ghost use Rattle.catalog_core.specs.Catalogs.{table_of};
ghost use Rattle.folder.specs.Spelled.{IsSpelledTable};

use catalog_core::{Catalog, know_table};
use catalog_types::Change;
use record_codec::spell_change;
use rows_core::Memory;
use std::alloc::Global;

/// The bytes of the checkpoint of a catalogue: at least one, and fewer than 536,870,912. `Memory` where memory
/// is refused.
pub fn spell_checkpoint(alloc: Global, catalog: &Catalog) -> Result<Vec<u8>, Memory>
    requires { IsSpelledTable (table_of catalog.now) }
    ensures bytes { IfOk result (λ bytes. bytes.items ≡ change_spelling (Checkpoint (table_of catalog.now))) }
    ensures size { IfOk result (λ bytes. (0 < length bytes.items) × (length bytes.items < 536870912)) }
{
    know_table(catalog);
    let change = checkpoint_of(alloc, catalog)?;
    spell_change(alloc, &change)
}

// The change that tells all of the catalogue.
fn checkpoint_of(alloc: Global, catalog: &Catalog) -> Result<Change, Memory>
    ensures { IfOk result (λ change. change ≡ Checkpoint (table_of catalog.now)) }
{
    let whole = catalog.snapshot(alloc)?;
    Ok(Change::Checkpoint { whole })
}

//! Laws of checkpoints.
ghost use Rattle.std.specs.Prelude.{◌≡◌, ◌<◌, length};
ghost use Rattle.catalog_types.specs.declared.change.Change.{Change};
ghost use Rattle.catalog_types.specs.declared.change.Change.TheVariants.{Checkpoint};
ghost use Rattle.record_codec.specs.Formats.{IsSpelledIn};
ghost use Rattle.record_codec.specs.Forms.{newest};
ghost use Rattle.record_codec.specs.Spelling.{change_spelling, HasChangeSpelling, keyless_snapshot};
ghost use Rattle.catalog_core.specs.IsTable.{IsTable};
ghost use Rattle.catalog_core.specs.Table.{Table, empty_table, Fits, after};
ghost use Rattle.folder.specs.Spelled.{IsSpelledTable};

/// The first table is spelled, and each change that has a spelling and fits keeps a table so.
pub fn tables_stay_spelled()
    ensures first { IsSpelledTable empty_table }
    ensures kept { (c : Change) (t : Table) → HasChangeSpelling c → Fits c t → IsTable t → IsSpelledTable t
        → IsSpelledTable (after c t) }
{}

/// A table that is spelled has a spelling as a checkpoint, of fewer than 536,870,912 bytes. Read back, without
/// the keys of its kept results, the checkpoint leads from the empty table to the table itself.
pub fn checkpoints_are_changes()
    ensures spelled { (t : Table) → IsTable t → IsSpelledTable t → HasChangeSpelling (Checkpoint t) }
    ensures short { (t : Table) → IsTable t → IsSpelledTable t
        → length (change_spelling (Checkpoint t)) < 536870912 }
    ensures read { (t : Table) → IsTable t → IsSpelledTable t
        → IsSpelledIn newest (Checkpoint (keyless_snapshot t))
        × (change_spelling (Checkpoint (keyless_snapshot t)) ≡ change_spelling (Checkpoint t)) }
    ensures fits { (t : Table) → IsTable t → Fits (Checkpoint (keyless_snapshot t)) empty_table }
    ensures after { (t : Table) → IsTable t → after (Checkpoint (keyless_snapshot t)) empty_table ≡ t }
{}

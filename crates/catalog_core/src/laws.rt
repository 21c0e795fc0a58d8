//! Laws of changes, and of the files of a table.
ghost use Rattle.std.specs.Prelude.{◌≡◌, ◌≢◌, ◌<◌, ℕ, List, [], Option, length, slice_index};
ghost use Rattle.std.specs.List.{Contains};
ghost use Rattle.rows_core.specs.declared.cut.Cut.{Cut};
ghost use Rattle.rows_core.specs.declared.file_ref.Digest.{Digest};
ghost use Rattle.plan_core.specs.PlainPlan.{PlainPlan, leaves};
ghost use Rattle.estimator.specs.Bytes.{IsCutOf, lengths_at};
ghost use Rattle.rewrite_core.specs.Entries.{Entry, AreSound};
ghost use Rattle.rewrite_core.specs.Files.{Extent, Result};
ghost use Rattle.catalog_types.specs.PlainEntry.{PlainEntry};
ghost use Rattle.catalog_types.specs.declared.change.Change.{Change};
ghost use Rattle.catalog_types.specs.declared.change.Change.TheVariants as change;
ghost use Rattle.catalog_types.specs.declared.extent.Extent as of_table;
ghost use Rattle.catalog_types.specs.declared.program.Program.{Program};
ghost use Rattle.catalog_types.specs.declared.snapshot.Snapshot.{Snapshot};
ghost use Rattle.catalog_types.specs.declared.snapshot.StreamState.{StreamState};
ghost use Rattle.cache_index.specs.Asked.{asked};
ghost use Rattle.catalog_core.specs.Catalogs.{table_of};
ghost use Rattle.catalog_core.specs.IsTable.{IsTable};
ghost use Rattle.catalog_core.specs.Named.{lengths_of, HasFile, file_at, machine_at};
ghost use Rattle.catalog_core.specs.Programs.{extents_at, AreCuts};
ghost use Rattle.catalog_core.specs.Table.{Table, empty_table, Fits, FitsProgram, after};
ghost use Rattle.rows_core.specs.Limits.{most_ticks};
ghost use Rattle.catalog_core.specs.Table.{with_programs, with_stored, with_tick, keyed, told_with};

use crate::catalog::Catalog;

/// What a catalogue holds is a table, which its readers say. A function that does nothing, whose contract is the law.
pub fn know_table(catalog: &Catalog)
    ensures { IsTable (table_of catalog.now) }
{
    let _ = catalog.streams();
}

/// What is true of every table is true of the first one, and a change that fits keeps it.
pub fn tables_stay_tables()
    ensures first { IsTable empty_table }
    ensures kept { (change : Change) (t : Table) → Fits change t → IsTable t → IsTable (after change t) }
{}

/// A table is told whole by the checkpoint of it, whatever keys that has: it fits the empty table, and leads to the
/// table again.
pub fn checkpoints_tell_tables()
    ensures fits { (t : Table) (whole : Snapshot) → IsTable t → keyed whole ≡ t
        → Fits (change.Checkpoint whole) empty_table }
    ensures after { (t : Table) (whole : Snapshot) → IsTable t → keyed whole ≡ t
        → after (change.Checkpoint whole) empty_table ≡ t }
    ensures keyed { (t : Table) → IsTable t → keyed t ≡ t }
    ensures anyway { (t : Table) (program key : Digest) → keyed (told_with program key t) ≡ keyed t }
{}

/// Work that reads, drops and keeps no result is a tick and stores its program, if it has one. It fits where
/// the tick isn't the last and the program fits.
pub fn idle_work()
    ensures after { (program : Option Program) (t : Table) → after (change.Work program [] [] []) t
        ≡ with_programs (with_stored program t.programs) (with_tick t) }
    ensures fits { (program : Option Program) (t : Table) → IsTable t → t.tick < most_ticks
        → FitsProgram program t → Fits (change.Work program [] [] []) t }
{}

/// The kept results of a table are sound for look-ups. The file of each one is there, and has the length that
/// look-ups tell.
pub fn kept_results_of_tables()
    ensures sound { (t : Table) (left_out : List ℕ) → IsTable t → AreSound (asked left_out t.entries) }
    ensures there { (t : Table) (left_out : List ℕ) (e : Entry) → Contains (asked left_out t.entries) e
        → HasFile t (Result e.id) }
    ensures len { (t : Table) (left_out : List ℕ) (e : Entry) → IsTable t
        → Contains (asked left_out t.entries) e → (file_at t (Result e.id)).len ≡ e.len }
    ensures found { (t : Table) (e : PlainEntry) → IsTable t → Contains t.entries e
        → (file_at t (Result e.id) ≡ e.file) × (machine_at t e.id ≡ e.machine) }
{}

/// Each file of a table has a number of its own: that of a kept result was given before the next one, and is no other
/// kept result's and no extent's.
pub fn files_of_tables()
    ensures given { (t : Table) (e : PlainEntry) → IsTable t → Contains t.entries e
        → (0 < e.file.file) × (e.file.file < t.next_file) }
    ensures own { (t : Table) (e other : PlainEntry) → IsTable t → Contains t.entries e
        → Contains t.entries other → e.file.file ≡ other.file.file → e ≡ other }
    ensures apart { (t : Table) (e : PlainEntry) (stream : StreamState) (extent : of_table.Extent) → IsTable t
        → Contains t.entries e → Contains t.streams stream → Contains stream.extents extent
        → e.file.file ≢ extent.file.file }
{}

/// Cuts over the streams of a table are cuts of the lengths of their extents, and an extent's length is that of
/// its file.
pub fn cuts_of_tables()
    ensures cuts { (t : Table) (plan : PlainPlan) (cuts : List Cut) → AreCuts t.streams (leaves plan) cuts
        → IsCutOf (lengths_of t.streams) plan cuts }
    ensures counts { (t : Table) (stream : ℕ)
        → length (lengths_at (lengths_of t.streams) stream) ≡ length (extents_at t.streams stream) }
    ensures len { (t : Table) (stream number : ℕ) → HasFile t (Extent stream number)
        → slice_index (lengths_at (lengths_of t.streams) stream) number
        ≡ (file_at t (Extent stream number)).len }
{}

//! Stores that are left, states that follow, and what the files of a state hold.
ghost use Rattle.std.specs.Prelude.{◌≡◌, ℕ, List, [], Option, length, ◌<◌, ◌≤◌, IsTrue};
ghost use Rattle.outside_traits.specs.View.{View, Now, Only};
ghost use Rattle.outside_traits.specs.Runs.{ChangesOnly, Narrows};
ghost use Rattle.rows_core.specs.declared.schema.Column.{Column};
ghost use Rattle.rows_core.specs.declared.value.Value.{Value};
ghost use Rattle.std.specs.List.{AllByRecursion, Contains};
ghost use Rattle.plan_core.specs.PlainPlan.{PlainPlan, leaves};
ghost use Rattle.plan_core.specs.TypedRows.{AreOfStreams};
ghost use Rattle.plan_laws.specs.ValidRows.{AreValidRows};
ghost use Rattle.estimator.specs.Cuts.{Cuts};
ghost use Rattle.rewrite_core.specs.IsRewriting.{IsRewriting, among};
ghost use Rattle.rewrite_core.specs.PlainRewriting.{PlainRewriting};
ghost use Rattle.growth_laws.specs.KeptResults.{AreKept as AreResults};
ghost use Rattle.growth_laws.specs.Lists.{extents_of};
ghost use Rattle.growth_laws.specs.Pieces.{pieces_of};
ghost use Rattle.cache_index.specs.Asked.{asked};
ghost use Rattle.entry_table.specs.AreKept.{AreKept};
ghost use Rattle.entry_table.specs.Ids.{is_among};
ghost use Rattle.entry_table.specs.Work.{kept_with};
ghost use Rattle.catalog_types.specs.PlainEntry.{PlainEntry, PlainNewEntry};
ghost use Rattle.catalog_types.specs.declared.change.Change.{Change};
ghost use Rattle.catalog_types.specs.declared.program.Program.{Program};
ghost use Rattle.catalog_core.specs.Programs.{AreCuts};
ghost use Rattle.catalog_core.specs.Table.{Table, Fits, after};
ghost use Rattle.catalog_core.specs.IsTable.{IsTable};
ghost use Rattle.folder.specs.State.{State, IsValid, extent_of, empty_state, table, file_bytes};
ghost use Rattle.folder.specs.State.{states_of, kinds_in, extents_in, lists_in};
ghost use Rattle.folder.specs.Files.{results_in, IsPieceIn, HoldsExtent, HoldsResult};
ghost use Rattle.folder.specs.Replay.{ReadsAs, StopsReading};
ghost use Rattle.folder.specs.Sound.{Care, IsSound};
ghost use Rattle.folder.specs.Left.{IsLeft, IsSettled, Since, StaysSound};
ghost use Rattle.folder.specs.Removing.{IsFree};
ghost use Rattle.folder.specs.Standing.{Stands, Means, IsNext};
ghost use Rattle.folder.specs.Next.{with_stream, with_rows, with_run, with_work, with_collection};
ghost use Rattle.folder.specs.Next.{new_extent, AreRowsOf, IsReadyResult};
ghost use Rattle.journal_store.specs.Readings.{users_file};
ghost use Rattle.journal_store.specs.declared.journal.Journal.{Journal};

use catalog_core::files_of_tables;
use outside_traits::Store;
use row_blob::one_spelling;

/// Files read as one table, or reading them stops at one place, and never both.
pub fn one_table()
    ensures once { (files : ℕ → List ℕ) (x y : Table) → ReadsAs files x → ReadsAs files y → x ≡ y }
    ensures or_stops { (files : ℕ → List ℕ) (x : Table) (file at : ℕ) → ReadsAs files x
        → StopsReading files file at → ⊥ }
    ensures one_place { (files : ℕ → List ℕ) (file at g b : ℕ) → StopsReading files file at
        → StopsReading files g b → (file ≡ g) × (at ≡ b) }
{}

/// A store without files is left with the state of a new folder, and one that was begun from files of a state
/// with that state. So is one whose state a folder means. Calls that change no file keep what is left. Where
/// crashes leave one of two states, they still do once calls that keep the second one have followed.
pub fn left_stores<D: Store>()
    ensures new { (care : Care) (store : D) → ((file : ℕ) → Only [] (Now (D.view store) file))
        → IsLeft care (D.view store) empty_state empty_state }
    ensures begun { (care : Care) (store : D) (s : State)
        → ((file : ℕ) → Only ((D.view store).files file) (Now (D.view store) file))
        → IsSound care (D.view store).files s → IsLeft care (D.view store) s s }
    ensures meant { (care : Care) (store : D) (t : Table) (journal : Journal) (s : State)
        → Means care (D.view store) t journal s → IsLeft care (D.view store) s s }
    ensures kept { (care : Care) (a b : State) (before then : D)
        → Narrows (D.view before) (D.view then) → IsLeft care (D.view before) a b
        → IsLeft care (D.view then) a b }
    ensures since { (care : Care) (a b : State) (origin before then : D)
        → Narrows (D.view before) (D.view then) → Since care a b (D.view origin) (D.view before)
        → Since care a b (D.view origin) (D.view then) }
    ensures stays { (care : Care) (a b : State) (origin before then : D)
        → Since care a b (D.view origin) (D.view before) → StaysSound care b (D.view before) (D.view then)
        → Since care a b (D.view origin) (D.view then) }
    ensures means { (care : Care) (before then : D) (t : Table) (journal : Journal) (s : State)
        → Narrows (D.view before) (D.view then) → Means care (D.view before) t journal s
        → Means care (D.view then) t journal s }
    ensures stands { (before then : D) (t : Table) (journal : Journal)
        → Narrows (D.view before) (D.view then) → Stands (D.view before) t journal
        → Stands (D.view then) t journal }
    // A change of the users' file alone keeps what is meant.
    ensures beside { (care : Care) (before then : D) (t : Table) (journal : Journal) (s : State)
        → Means care (D.view before) t journal s
        → ChangesOnly users_file (D.view before) (D.view then)
        → Means care (D.view then) t journal s
        × StaysSound care s (D.view before) (D.view then) }
{}

/// The states that follow from one, where the change fits its table: with one more stream; with one more
/// extent, where the next file has the bytes of its rows after each crash now; with what a run leaves; with
/// what a piece of work leaves, where the new results are of their plans and their files have the bytes of
/// their forms after each crash now; and without the kept results that are collected. A run is a piece of
/// work that reads, drops and keeps nothing.
pub fn next_states<D: Store>()
    ensures stream { (care : Care) (store : D) (s : State) (name : List ℕ) (columns : List Column)
        → IsSettled care (D.view store) s → IsValid s → Fits (Change.Stream name columns) (table s)
        → IsNext care (D.view store) s (Change.Stream name columns) (with_stream s name columns) }
    ensures rows { (care : Care) (store : D) (s : State) (place : ℕ) (rows : List (List Value))
        → IsSettled care (D.view store) s → IsValid s
        → Fits (Change.Append place (extent_of (new_extent s.next_file rows))) (table s)
        → AreRowsOf s place rows → Only (file_bytes rows) (Now (D.view store) s.next_file)
        → IsNext care (D.view store) s (Change.Append place (extent_of (new_extent s.next_file rows)))
        (with_rows s place rows) }
    ensures run { (care : Care) (store : D) (s : State) (program : Option Program)
        → IsSettled care (D.view store) s → IsValid s → Fits (Change.Work program [] [] []) (table s)
        → IsNext care (D.view store) s (Change.Work program [] [] []) (with_run s program) }
    ensures work { (care : Care) (store : D) (s : State) (program : Option Program)
        (reads dropped : List ℕ) (kept : List PlainNewEntry) → IsSettled care (D.view store) s → IsValid s
        → Fits (Change.Work program reads dropped kept) (table s)
        → AllByRecursion (IsReadyResult (D.view store) s.streams) kept
        → IsNext care (D.view store) s (Change.Work program reads dropped kept)
        (with_work s program reads dropped kept) }
    ensures collection { (care : Care) (store : D) (s : State) (ids : List ℕ)
        → IsSettled care (D.view store) s → IsValid s → Fits (Change.Collect ids) (table s)
        → IsNext care (D.view store) s (Change.Collect ids) (with_collection s ids) }
    ensures nothing_kept { (s : State) (program : Option Program)
        → with_work s program [] [] [] ≡ with_run s program }
{}

/// The file of each kept result that a collection takes out is one that the table names no more.
pub fn files_that_went()
    ensures { (t : Table) (ids : List ℕ) (e : PlainEntry) → IsTable t → Contains t.entries e
        → IsTrue (is_among ids e.id) → IsFree (after (Change.Collect ids) t) e.file.file }
{
    files_of_tables();
}

/// What the files hold that rewritings over the kept results of a state name, but for those whose ids are
/// left out. Each piece of such a rewriting, at a cut that ends within the extents, is a kept result of the
/// state with its plan, or extents of one stream that are there. Where the files are a state's, no form may
/// be read of an extent's file but its rows, and none of a kept result's but that of its plan's result at
/// its cut, whose machine time is kept beside it.
pub fn files_of_states()
    ensures kept { (s : State) (left_out : List ℕ) → IsValid s → AreKept (kept_with s.next_id s.entries)
        → AreResults (extents_in s.streams) (results_in s) (asked left_out s.entries) }
    ensures pieces { (s : State) (left_out : List ℕ) (plan : PlainPlan) (cuts : Cuts) (r : PlainRewriting)
        → IsValid s → IsRewriting (among (asked left_out s.entries)) plan cuts r
        → AreCuts (states_of s.streams) (leaves plan) cuts → AllByRecursion (IsPieceIn s) (pieces_of r) }
    ensures extents { (care : Care) (files : ℕ → List ℕ) (s : State) (place number : ℕ)
        → IsSound care files s → number < length (extents_of (extents_in s.streams) place)
        → HoldsExtent files s place number }
    ensures results { (care : Care) (files : ℕ → List ℕ) (s : State) (e : PlainEntry) → IsSound care files s
        → AreKept (kept_with s.next_id s.entries) → Contains s.entries e → HoldsResult files s e }
{
    one_spelling();
}

/// The rows of a valid state have values in i64 and texts of at most 1,000 bytes, and at a cut that ends
/// within the extents each leaf has a list of rows of its stream's kinds. The machine times of kept results
/// are in 32 bits.
pub fn rows_of_states()
    ensures valid { (s : State) → IsValid s → AllByRecursion (AllByRecursion AreValidRows)
        (extents_in s.streams) }
    ensures typed { (s : State) (plan : PlainPlan) (cuts : Cuts) → IsValid s
        → AreCuts (states_of s.streams) (leaves plan) cuts
        → AreOfStreams (kinds_in s.streams) (leaves plan) (lists_in s.streams plan cuts) }
    ensures machines { (s : State) → IsValid s → (id : ℕ) → (results_in s id).machine ≤ 4294967295 }
{}

//! Folders in a store.
ghost use Rattle.std.specs.Prelude.{◌≡◌, ◌≢◌, ◌⊎◌, ◌↔◌, ℕ, ◌+◌, ◌*◌, ◌^◌, ◌<◌, ◌≤◌, true, false, List, length};
ghost use Rattle.std.specs.Prelude.{IsTrue, IsOk, IfOk, OnOk, OnErr, IsErrOf};
ghost use Rattle.outside_traits.specs.Counts.{Rose};
ghost use Rattle.outside_traits.specs.View.{View, Counts, Now, Only};
ghost use Rattle.outside_traits.specs.Calls.{MayRaiseWrites, Rises};
ghost use Rattle.outside_traits.specs.Runs.{ChangesOnly, Narrows, Spans};
ghost use Rattle.gated_log.specs.Logs.{front, contents};
ghost use Rattle.record_codec.specs.Spelling.{change_spelling, HasChangeSpelling};
ghost use Rattle.catalog_core.specs.Table.{Table, empty_table, after, Fits};
ghost use Rattle.catalog_core.specs.Catalogs.{table_of, IsReady};
ghost use Rattle.folder.specs.Spelled.{IsSpelledTable};
ghost use Rattle.journal_store.specs.Readings.{generation_file, IsJournalFile, HaveBodies, LogHasAtMost};
ghost use Rattle.journal_store.specs.Journals.{end_of, generation_of, had_root_of, Keeps};
ghost use Rattle.folder.specs.State.{State, table, file_bytes};
ghost use Rattle.folder.specs.Replay.{Replays, ReadsAs, StopsReading, StopsReplay, due_in, form_in};
ghost use Rattle.folder.specs.Replay.{is_checkpoint};
ghost use Rattle.folder.specs.Sound.{Care};
ghost use Rattle.folder.specs.Left.{IsLeft, IsLeftWith, Since, StaysSound};
ghost use Rattle.folder.specs.Standing.{Means, MeansIn, StandsIn, IsNext};
ghost use Rattle.record_codec.specs.declared.form.Form.{Form};

use crate::found::Found;
use crate::leaving::may_stay;
use crate::refusal::LoadRefusal;
use crate::replay::{of_replay, replay};
use crate::spell_checkpoint;
use catalog_core::{Catalog, CatalogRefusal};
use catalog_types::Change;
use extent_files::write_file;
use journal_store::Journal;
use outside_traits::{Failed, Store};
use std::alloc::Global;

/// A folder that was loaded: its table in memory, and the journal that keeps it.
#[derive(Drop)]
pub struct Folder {
    catalog: Catalog,
    journal: Journal,
    ghost room: { end_of journal ≤ 2 ^ 63 + (table_of catalog).tick * 2 ^ 30 },
}

impl Folder {
    ghost use Rattle.folder.specs.Folders.{catalog_of, journal_of, table_in, FolderStands, FolderMeans};
    ghost use Rattle.folder.specs.InUse.{MayStay, HaveLogsThatStay, IsInUse, IsLoadedAsItIs, IsReplaced};
    ghost use Rattle.folder.specs.Unnamed.{HasRoot};

    // Loads a folder but for the files that nothing names. A log of more than 1,024 bodies, or of an older
    // form than the newest, is replaced by that of the next generation, which begins with a checkpoint of the
    // table.
    pub(crate) fn load_logs<D: Store>(alloc: Global, store: &mut D) -> Result<Folder, LoadRefusal>
        ensures reading { IsTrue D.tells
            → IfOk result (λ folder. ReadsAs (D.view store.old).files (table_in folder)) }
        ensures stands { IsTrue D.tells → IfOk result (λ folder. FolderStands (D.view store.new) folder) }
        ensures crash { IsTrue D.tells → (care : Care) (a b : State) → IsLeft care (D.view store.old) a b
            → Since care a b (D.view store.old) (D.view store.new) }
        ensures means { IsTrue D.tells → (care : Care) (a b : State) → IsLeft care (D.view store.old) a b
            → IfOk result (λ folder. FolderMeans care (D.view store.new) folder a) }
        ensures not_a_store { IsTrue D.tells → (file at : ℕ)
            → IsErrOf result (LoadRefusal.NotAStore file at) → StopsReading (D.view store.old).files file at }
        ensures generation { IsTrue D.tells → (g : ℕ) (bodies : List (List ℕ))
            → HaveBodies (D.view store.old).files g bodies
            → IfOk result (λ folder. IsInUse (D.view store.new) folder g bodies) }
        ensures had_root { IsTrue D.tells → IfOk result
            (λ folder. IsTrue (had_root_of (journal_of folder)) ↔ HasRoot (D.view store.old).files) }
        ensures alone { IsTrue D.tells
            → Spans IsJournalFile (λ image. Unit {0}) (D.view store.old) (D.view store.new) }
        ensures finished { IsTrue D.tells → IsLoadedAsItIs (D.view store.old).files
            → Narrows (D.view store.old) (D.view store.new) }
        ensures unchanged { IsTrue D.tells → (file at : ℕ) → IsErrOf result (LoadRefusal.NotAStore file at)
            → Narrows (D.view store.old) (D.view store.new) }
        ensures cause { IsErrOf result LoadRefusal.Fault
            → Rose (D.counts store.old).reads (D.counts store.new).reads
            ⊎ Rose (D.counts store.old).writes (D.counts store.new).writes }
        ensures no_fault { OnOk result
            (((D.counts store.new).reads ≡ (D.counts store.old).reads)
            × ((D.counts store.new).writes ≡ (D.counts store.old).writes)) }
        ensures no_removal { IsTrue D.tells → HaveLogsThatStay (D.view store.old).files
            → (D.counts store.new).removes ≡ (D.counts store.old).removes }
        ensures most_taken { IsTrue D.tells → (most : ℕ) → LogHasAtMost (D.view store.old).files most
            → (D.counts store.new).taken
            ≤ (D.counts store.old).taken + length ((D.view store.old).files 0) + most }
        ensures counts { Rises (D.counts store.old) (D.counts store.new) }
    {
        match Found::read(alloc, store) {
            Ok(
                Found {
                    folder,
                    form,
                    bodies,
                },
            ) => {
                if may_stay(form, bodies) {
                    Ok(folder)
                } else {
                    folder.replace_log(alloc, store)
                }
            }
            Err(refusal) => Err(refusal),
        }
    }

    // Replaces the log, whatever its form, by that of the next generation, whose one body is the checkpoint
    // of the table. Each crash leaves the state as it was. `Fault` comes only where the store failed.
    fn replace_log<D: Store>(self, alloc: Global, store: &mut D) -> Result<Folder, LoadRefusal>
        requires spelled { IsSpelledTable (table_in self) }
        requires room { generation_of (journal_of self) < 2 ^ 60 }
        ensures table { IfOk result (λ folder. table_in folder ≡ table_in self) }
        ensures stays { IsTrue D.tells → (f : Form) (care : Care) (s : State)
            → MeansIn f care (D.view store.old) (table_in self) (journal_of self) s
            → StaysSound care s (D.view store.old) (D.view store.new) }
        ensures means { IsTrue D.tells → (f : Form) (care : Care) (s : State)
            → MeansIn f care (D.view store.old) (table_in self) (journal_of self) s
            → IfOk result (λ folder. FolderMeans care (D.view store.new) folder s) }
        ensures stands { IsTrue D.tells → (f : Form)
            → StandsIn f (D.view store.old) (table_in self) (journal_of self)
            → IfOk result (λ folder. FolderStands (D.view store.new) folder) }
        ensures had_root { IfOk result
            (λ folder. had_root_of (journal_of folder) ≡ had_root_of (journal_of self)) }
        ensures alone { IsTrue D.tells → (f : Form)
            → StandsIn f (D.view store.old) (table_in self) (journal_of self)
            → Spans IsJournalFile (λ image. Unit {0}) (D.view store.old) (D.view store.new) }
        ensures replaced { IsTrue D.tells → (f : Form)
            → StandsIn f (D.view store.old) (table_in self) (journal_of self)
            → (g : ℕ) (bodies : List (List ℕ)) → Keeps (D.view store.old) (journal_of self) g bodies
            → (MayStay bodies → ⊥) → IfOk result (λ folder. IsReplaced (D.view store.new) folder g bodies) }
        ensures is_store { (file at : ℕ) → IsErrOf result (LoadRefusal.NotAStore file at) → ⊥ }
        ensures cause { IsErrOf result LoadRefusal.Fault
            → Rose (D.counts store.old).writes (D.counts store.new).writes }
        ensures no_fault { OnOk result ((D.counts store.new).writes ≡ (D.counts store.old).writes) }
        ensures reads { (D.counts store.new).reads ≡ (D.counts store.old).reads }
        ensures taken { (D.counts store.new).taken ≡ (D.counts store.old).taken }
        ensures counts { Rises (D.counts store.old) (D.counts store.new) }
    {
        let Folder { catalog, journal } = self;
        let Ok(body) = spell_checkpoint(alloc, &catalog) else {
            return Err(LoadRefusal::Memory);
        };
        match journal.checkpoint(store, &body) {
            Ok(journal) => Ok(Folder { catalog, journal }),
            Err(Failed) => Err(LoadRefusal::Fault),
        }
    }

    /// The table.
    pub fn catalog(&self) -> &Catalog
        ensures { result.now ≡ catalog_of self.now }
    {
        &self.catalog
    }

    /// The generation in use, and the end of its log.
    pub fn journal(&self) -> &Journal
        ensures { result.now ≡ journal_of self.now }
    {
        &self.journal
    }

    /// Takes all the memory that recording the change wants, which is no checkpoint. Nothing changes but that.
    pub fn prepare(&mut self, change: &Change) -> Result<(), CatalogRefusal>
        requires { is_checkpoint change.now ≡ false }
        ensures same { table_in self.new ≡ table_in self.old }
        ensures journal { journal_of self.new ≡ journal_of self.old }
        ensures ready { OnOk result (IsReady (catalog_of self.new) change.now) }
        ensures fits { OnOk result (Fits change.now (table_in self.old)) }
        ensures misfit { IsErrOf result CatalogRefusal.Misfit → Fits change.now (table_in self.old) → ⊥ }
    {
        self.catalog.prepare(change)
    }

    /// Writes the file that comes so many behind the next one, which no state names yet. Each crash leaves
    /// the state as it was, and what any other file holds. `Failed` comes only where the store failed. It
    /// takes no memory.
    pub fn write_next<D: Store>(
        &self,
        store: &mut D,
        ahead: u64,
        bytes: &[u8],
    ) -> Result<(), Failed>
        requires { (table_in self.now).next_file + ahead < 2 ^ 32 }
        ensures stays { IsTrue D.tells → (care : Care) (s : State)
            → FolderMeans care (D.view store.old) self.now s
            → StaysSound care s (D.view store.old) (D.view store.new) }
        ensures means { IsTrue D.tells → (care : Care) (s : State)
            → FolderMeans care (D.view store.old) self.now s
            → FolderMeans care (D.view store.new) self.now s }
        ensures stands { FolderStands (D.view store.old) self.now → FolderStands (D.view store.new) self.now }
        ensures stable { IsTrue D.tells → OnOk result
            (Only bytes.now (Now (D.view store.new) ((table_in self.now).next_file + ahead))) }
        ensures others { (file : ℕ) (held : List ℕ) → file ≢ (table_in self.now).next_file + ahead
            → Only held (Now (D.view store.old) file) → Only held (Now (D.view store.new) file) }
        ensures alone { ChangesOnly ((table_in self.now).next_file + ahead)
            (D.view store.old) (D.view store.new) }
        ensures cause { OnErr result (Rose (D.counts store.old).writes (D.counts store.new).writes) }
        ensures no_fault { OnOk result ((D.counts store.new).writes ≡ (D.counts store.old).writes) }
        ensures counts { MayRaiseWrites (D.counts store.old) (D.counts store.new) }
    {
        let file = self.catalog.next_file() + ahead;
        write_file(store, file, bytes)
    }

    /// Records a change for which the folder was prepared. Each crash since leaves the state as it was or the
    /// next one, and after `Ok` the next one. `Failed` comes only where the store failed. It takes no memory.
    pub fn record<D: Store>(
        self,
        store: &mut D,
        change: Change,
        body: &[u8],
    ) -> Result<Folder, Failed>
        requires ready { IsReady (catalog_of self) change }
        requires no_checkpoint { is_checkpoint change ≡ false }
        requires spelled { HasChangeSpelling change }
        requires body { body.now ≡ change_spelling change }
        requires size { length body.now < 2 ^ 29 }
        ensures table { IfOk result (λ folder. table_in folder ≡ after change (table_in self)) }
        ensures crash { IsTrue D.tells → (care : Care) (s s' : State)
            → FolderMeans care (D.view store.old) self s → IsNext care (D.view store.old) s change s'
            → Since care s s' (D.view store.old) (D.view store.new) }
        ensures means { IsTrue D.tells → (care : Care) (s s' : State)
            → FolderMeans care (D.view store.old) self s → IsNext care (D.view store.old) s change s'
            → IfOk result (λ folder. FolderMeans care (D.view store.new) folder s') }
        ensures left { IsTrue D.tells → (care : Care) (s s' : State)
            → FolderMeans care (D.view store.old) self s → IsNext care (D.view store.old) s change s'
            → OnErr result (IsLeftWith care (D.view store.new) s s') }
        ensures stands { IsTrue D.tells → FolderStands (D.view store.old) self
            → IfOk result (λ folder. FolderStands (D.view store.new) folder) }
        ensures alone { ChangesOnly (generation_file (generation_of (journal_of self)))
            (D.view store.old) (D.view store.new) }
        ensures cause { OnErr result (Rose (D.counts store.old).writes (D.counts store.new).writes) }
        ensures no_fault { OnOk result ((D.counts store.new).writes ≡ (D.counts store.old).writes) }
        ensures counts { MayRaiseWrites (D.counts store.old) (D.counts store.new) }
    {
        let Folder {
            mut catalog,
            journal,
        } = self;
        match journal.commit(store, body) {
            Ok(journal) => {
                catalog.apply(change);
                Ok(Folder { catalog, journal })
            }
            Err(Failed) => Err(Failed),
        }
    }
}

impl Folder {
    ghost use Rattle.folder.specs.Folders.{journal_of, table_in};

    // The folder over what was read of the journal.
    pub(crate) fn over(
        alloc: Global,
        journal: Journal,
        bodies: &[Vec<u8>],
    ) -> Result<Folder, LoadRefusal>
        requires end { end_of journal ≡ length (front (contents bodies.now)) + 1 }
        requires bound { end_of journal < 2 ^ 63 }
        ensures journal { IfOk result (λ folder. journal_of folder ≡ journal) }
        ensures replays { IfOk result (λ folder. Replays (form_in (contents bodies.now))
            (due_in (generation_of journal)) empty_table (contents bodies.now) (table_in folder)) }
        ensures stops { (file at : ℕ) → IsErrOf result (LoadRefusal.NotAStore file at)
            → (file ≡ generation_file (generation_of journal))
            × StopsReplay (form_in (contents bodies.now)) (due_in (generation_of journal)) empty_table 8
            (contents bodies.now) at }
        ensures no_fault { IsErrOf result LoadRefusal.Fault → ⊥ }
    {
        match replay(alloc, journal.generation(), bodies) {
            Ok(catalog) => Ok(Folder { catalog, journal }),
            Err(refusal) => Err(of_replay(journal.file(), refusal)),
        }
    }
}

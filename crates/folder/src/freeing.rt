//! Loading a folder, and removing the files that it doesn't name.
ghost use Rattle.std.specs.Prelude.{◌≡◌, ◌⊎◌, ℕ, ◌+◌, ◌≤◌, true, false, List, length, not, IsTrue};
ghost use Rattle.std.specs.Prelude.{IfOk, OnOk, OnErr, IsErrOf};
ghost use Rattle.std.specs.List.Sorted.{IsNonDecreasing, IsPermutation};
ghost use Rattle.outside_traits.specs.Counts.{Rose};
ghost use Rattle.outside_traits.specs.View.{View, Counts};
ghost use Rattle.outside_traits.specs.Calls.{Rises};
ghost use Rattle.outside_traits.specs.Runs.{Narrows};
ghost use Rattle.folder.specs.Strays.{ChangesStrays};
ghost use Rattle.catalog_core.specs.Table.{Table};
ghost use Rattle.journal_store.specs.Journals.{had_root_of};
ghost use Rattle.journal_store.specs.Readings.{generation_file, users_file, HaveBodies, LogHasAtMost};
ghost use Rattle.folder.specs.Left.{IsLeft, IsLeftWith, LeavesAlone, Since, StaysSound};
ghost use Rattle.folder.specs.Replay.{ReadsAs, StopsReading};
ghost use Rattle.folder.specs.Sound.{Care};
ghost use Rattle.folder.specs.State.{State};

use crate::folder::Folder;
use crate::refusal::LoadRefusal;
use crate::remove_strays;
use journal_store::USERS_FILE;
use outside_traits::{Failed, Store};
use rows_core::Memory;
use std::alloc::Global;

impl Folder {
    ghost use Rattle.folder.specs.Folders.{journal_of, table_in, FolderStands, FolderMeans};
    ghost use Rattle.folder.specs.InUse.{IsInUse, IsLoadedAsItIs};
    ghost use Rattle.folder.specs.Unnamed.{HasRoot, HasOnlyNamed, ChangesUnnamed, ChangesLogsOrUnnamed, named_in};

    /// Loads a folder, which is made where its making isn't finished. The table is what the logs read as.
    /// `NotAStore` comes exactly where they read as none, with the first byte where reading stops, and leaves
    /// each file as it was. `Fault` comes only where the store failed. No file is read but the logs, each
    /// once. A log of more than 1,024 bodies, or of an older form than the newest, is replaced by that of the
    /// next generation, which begins with a checkpoint of the table. Where the root named a generation, each
    /// file that the folder doesn't name is removed then; a removal that fails is let pass.
    pub fn load<D: Store>(alloc: Global, store: &mut D) -> Result<Folder, LoadRefusal>
        ensures reading { IsTrue D.tells
            → IfOk result (λ folder. ReadsAs (D.view store.old).files (table_in folder)) }
        ensures stands { IsTrue D.tells → IfOk result (λ folder. FolderStands (D.view store.new) folder) }
        // From a store that is left: each crash since leaves one of its states, and after `Ok` the first
        // alone. It is never `NotAStore`, by `store`.
        ensures crash { IsTrue D.tells → (care : Care) (a b : State) → IsLeft care (D.view store.old) a b
            → Since care a b (D.view store.old) (D.view store.new) }
        ensures means { IsTrue D.tells → (care : Care) (a b : State) → IsLeft care (D.view store.old) a b
            → IfOk result (λ folder. FolderMeans care (D.view store.new) folder a) }
        ensures left { IsTrue D.tells → (care : Care) (a b : State) → IsLeft care (D.view store.old) a b
            → OnErr result (IsLeftWith care (D.view store.new) a b) }
        ensures not_a_store { IsTrue D.tells → (file at : ℕ)
            → IsErrOf result (LoadRefusal.NotAStore file at) → StopsReading (D.view store.old).files file at }
        ensures store { IsTrue D.tells → (t : Table) → ReadsAs (D.view store.old).files t
            → (file at : ℕ) → IsErrOf result (LoadRefusal.NotAStore file at) → ⊥ }
        ensures exactly { IsTrue D.tells → (file at : ℕ) → StopsReading (D.view store.old).files file at
            → OnOk result ⊥ }
        ensures place { IsTrue D.tells → (file at g b : ℕ) → StopsReading (D.view store.old).files file at
            → IsErrOf result (LoadRefusal.NotAStore g b) → (g ≡ file) × (b ≡ at) }
        // The generation in use is the one that was, unless that has more than 1,024 bodies, is of an older
        // form or is newly made; then it is the next one, with the checkpoint as its one body.
        ensures generation { IsTrue D.tells → (g : ℕ) (bodies : List (List ℕ))
            → HaveBodies (D.view store.old).files g bodies
            → IfOk result (λ folder. IsInUse (D.view store.new) folder g bodies) }
        // Only logs are changed, and files that the folder doesn't name; where the log stays these alone; and
        // none before `NotAStore`.
        ensures alone { IsTrue D.tells → ChangesLogsOrUnnamed (D.view store.old) (D.view store.new) }
        // So the users' file is left alone.
        ensures users { IsTrue D.tells → LeavesAlone users_file (D.view store.old) (D.view store.new) }
        ensures finished { IsTrue D.tells → IsLoadedAsItIs (D.view store.old).files
            → ChangesUnnamed (D.view store.old) (D.view store.new) }
        ensures unchanged { IsTrue D.tells → (file at : ℕ) → IsErrOf result (LoadRefusal.NotAStore file at)
            → Narrows (D.view store.old) (D.view store.new) }
        // After `Ok` a folder that had a root has only named files, unless a removal failed.
        ensures only_named { IsTrue D.tells → HasRoot (D.view store.old).files → IfOk result
            (λ folder. Rose (D.counts store.old).removes (D.counts store.new).removes
            ⊎ HasOnlyNamed (D.view store.new) folder) }
        ensures cause { IsErrOf result LoadRefusal.Fault
            → Rose (D.counts store.old).reads (D.counts store.new).reads
            ⊎ Rose (D.counts store.old).writes (D.counts store.new).writes }
        ensures no_fault { OnOk result
            (((D.counts store.new).reads ≡ (D.counts store.old).reads)
            × ((D.counts store.new).writes ≡ (D.counts store.old).writes)) }
        ensures taken { IsTrue D.tells → (g : ℕ) (bodies : List (List ℕ))
            → HaveBodies (D.view store.old).files g bodies → (D.counts store.new).taken
            ≤ (D.counts store.old).taken + length ((D.view store.old).files 0)
            + length ((D.view store.old).files (generation_file g)) }
        // Never are more bytes taken than those of the root and of the log that it names.
        ensures most_taken { IsTrue D.tells → (most : ℕ) → LogHasAtMost (D.view store.old).files most
            → (D.counts store.new).taken
            ≤ (D.counts store.old).taken + length ((D.view store.old).files 0) + most }
        ensures counts { Rises (D.counts store.old) (D.counts store.new) }
    {
        match Folder::load_logs(alloc, store) {
            Ok(folder) => match folder.free_unnamed(alloc, store) {
                Ok(()) => Ok(folder),
                Err(refusal) => Err(refusal),
            },
            Err(refusal) => Err(refusal),
        }
    }

    // Removes each file that the folder doesn't name, where it had a root. Each crash leaves the state as it
    // was. `Fault` comes only where the store failed to tell the next file.
    fn free_unnamed<D: Store>(&self, alloc: Global, store: &mut D) -> Result<(), LoadRefusal>
        ensures alone { ChangesStrays (named_in self.now) (D.view store.old) (D.view store.new) }
        ensures had_none { had_root_of (journal_of self.now) ≡ false
            → Narrows (D.view store.old) (D.view store.new)
            × ((D.counts store.new).removes ≡ (D.counts store.old).removes) }
        ensures gone { IsTrue D.tells → IsTrue (had_root_of (journal_of self.now))
            → OnOk result (Rose (D.counts store.old).removes (D.counts store.new).removes
            ⊎ HasOnlyNamed (D.view store.new) self.now) }
        ensures is_store { (file at : ℕ) → IsErrOf result (LoadRefusal.NotAStore file at) → ⊥ }
        ensures cause { IsErrOf result LoadRefusal.Fault
            → Rose (D.counts store.old).reads (D.counts store.new).reads }
        ensures no_fault { OnOk result ((D.counts store.new).reads ≡ (D.counts store.old).reads) }
        ensures writes { (D.counts store.new).writes ≡ (D.counts store.old).writes }
        ensures taken { (D.counts store.new).taken ≡ (D.counts store.old).taken }
        ensures counts { Rises (D.counts store.old) (D.counts store.new) }
    {
        if !self.journal().had_root() {
            return Ok(());
        }
        let Ok(named) = self.named_files(alloc) else {
            return Err(LoadRefusal::Memory);
        };
        match remove_strays(store, &named) {
            Ok(()) => Ok(()),
            Err(Failed) => Err(LoadRefusal::Fault),
        }
    }

    // The numbers of the files that the folder names, in ascending order.
    fn named_files(&self, alloc: Global) -> Result<Vec<u64>, Memory>
        ensures sorted { IfOk result (λ files. IsNonDecreasing files.items) }
        ensures named { IfOk result (λ files. IsPermutation (named_in self.now) files.items) }
    {
        let mut files = self.catalog().files(alloc)?;
        files.push(0)?;
        files.push(self.journal().file())?;
        files.push(USERS_FILE)?;
        files.sort_unstable();
        Ok(files)
    }
}

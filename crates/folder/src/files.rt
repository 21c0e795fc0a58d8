//! Writing several files, one behind the other.
ghost use Rattle.std.specs.Prelude.{◌≡◌, ℕ, ◌+◌, ◌^◌, ◌<◌, ◌≤◌, List, length, IsTrue, OnOk, OnErr};
ghost use Rattle.outside_traits.specs.Counts.{Rose};
ghost use Rattle.outside_traits.specs.View.{View, Counts, Now, Only};
ghost use Rattle.outside_traits.specs.Calls.{MayRaiseWrites};
ghost use Rattle.folder.specs.Sound.{Care};
ghost use Rattle.folder.specs.State.{State};
ghost use Rattle.folder.specs.Left.{StaysSound};
ghost use Rattle.folder.specs.Written.{AreWritten, ChangesFrom};

use crate::folder::Folder;
use outside_traits::{Failed, Store};
use rows_core::Seq;

impl Folder {
    ghost use Rattle.folder.specs.Folders.{table_in, FolderStands, FolderMeans};

    /// Writes the files that come so many behind the next one, which no state names yet, one behind the
    /// other. Each crash leaves the state as it was, and what any file before them holds. `Failed` comes only
    /// where the store failed. It takes no memory.
    pub fn write_files<D: Store>(
        &self,
        store: &mut D,
        ahead: u64,
        files: &[Seq<u8>],
    ) -> Result<(), Failed>
        requires { (table_in self.now).next_file + ahead + length files.now ≤ 2 ^ 32 }
        ensures stays { IsTrue D.tells → (care : Care) (s : State)
            → FolderMeans care (D.view store.old) self.now s
            → StaysSound care s (D.view store.old) (D.view store.new) }
        ensures means { IsTrue D.tells → (care : Care) (s : State)
            → FolderMeans care (D.view store.old) self.now s
            → FolderMeans care (D.view store.new) self.now s }
        ensures stands { FolderStands (D.view store.old) self.now → FolderStands (D.view store.new) self.now }
        ensures stable { IsTrue D.tells → OnOk result
            (AreWritten (D.view store.new) ((table_in self.now).next_file + ahead) files.now) }
        ensures others { (file : ℕ) (held : List ℕ) → file < (table_in self.now).next_file + ahead
            → Only held (Now (D.view store.old) file) → Only held (Now (D.view store.new) file) }
        ensures alone { ChangesFrom ((table_in self.now).next_file + ahead)
            (D.view store.old) (D.view store.new) }
        ensures cause { OnErr result (Rose (D.counts store.old).writes (D.counts store.new).writes) }
        ensures no_fault { OnOk result ((D.counts store.new).writes ≡ (D.counts store.old).writes) }
        ensures counts { MayRaiseWrites (D.counts store.old) (D.counts store.new) }
    {
        match files {
            [] => Ok(()),
            [first, others @ ..] => match self.write_next(store, ahead, first.items()) {
                Ok(()) => self.write_files(store, ahead + 1, others),
                Err(Failed) => Err(Failed),
            },
        }
    }
}

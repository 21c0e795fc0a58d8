//! Removing the files that went.
ghost use Rattle.std.specs.Prelude.{◌⊎◌, IsTrue};
ghost use Rattle.std.specs.List.{All};
ghost use Rattle.outside_traits.specs.Counts.{Rose};
ghost use Rattle.outside_traits.specs.View.{View, Counts};
ghost use Rattle.outside_traits.specs.Calls.{MayRaiseRemoves};
ghost use Rattle.folder.specs.Sound.{Care};
ghost use Rattle.folder.specs.State.{State};
ghost use Rattle.folder.specs.Left.{StaysSound};
ghost use Rattle.folder.specs.Removing.{IsFree, ChangesAmong, AreGone};

use crate::folder::Folder;
use extent_files::drop_file;
use outside_traits::Store;

impl Folder {
    ghost use Rattle.folder.specs.Folders.{table_in, FolderStands, FolderMeans};

    /// Removes files that the table names no more. A removal that fails is let pass, since such a file is in
    /// nobody's way. Each crash leaves the state as it was, and all other files are left alone. It takes no
    /// memory.
    pub fn remove_files<D: Store>(&self, store: &mut D, files: &[u64])
        requires { All (IsFree (table_in self.now)) files.now }
        ensures stays { IsTrue D.tells → (care : Care) (s : State)
            → FolderMeans care (D.view store.old) self.now s
            → StaysSound care s (D.view store.old) (D.view store.new) }
        ensures means { IsTrue D.tells → (care : Care) (s : State)
            → FolderMeans care (D.view store.old) self.now s
            → FolderMeans care (D.view store.new) self.now s }
        ensures stands { FolderStands (D.view store.old) self.now → FolderStands (D.view store.new) self.now }
        ensures alone { ChangesAmong files.now (D.view store.old) (D.view store.new) }
        // None of them is there, unless a removal failed.
        ensures gone { IsTrue D.tells → Rose (D.counts store.old).removes (D.counts store.new).removes
            ⊎ AreGone (D.view store.new) files.now }
        ensures counts { MayRaiseRemoves (D.counts store.old) (D.counts store.new) }
    {
        for file in files {
            let _ = drop_file(store, *file);
        }
    }
}

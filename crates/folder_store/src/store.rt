//! The store over a real folder.
ghost use Rattle.std.specs.Prelude.{◌≡◌, ◌≤◌, false, refl, IfOk, IfErr, OnOk, OnErr, Some};
ghost use Rattle.outside_traits.specs.Counts.{Rose};
ghost use Rattle.outside_traits.specs.View.{untold};

use crate::directory::Folder;
use outside_traits::{Failed, Store};
use std::fs::File;
use std::io;
use std::rt::Files;

/// A store over a folder. It tells nothing: what a folder holds between two calls is the system's.
#[derive(Drop)]
pub struct FolderStore<'a, R> {
    folder: Folder<'a, R>,
    read_faults: u64,
    write_faults: u64,
    remove_faults: u64,
    taken: u64,
    /// Why the last call failed that did.
    failure: Option<io::Error>,
}

impl<'a, R: AllocGlobal + Files<File = File>> FolderStore<'a, R> {
    /// No folder is in use until `attach`.
    pub fn new(runtime: &'a R) -> FolderStore<'a, R> {
        FolderStore {
            folder: Folder::new(runtime),
            read_faults: 0,
            write_faults: 0,
            remove_faults: 0,
            taken: 0,
            failure: None,
        }
    }
}

impl<R> FolderStore<'_, R> {
    /// Why the last call failed that did. None where none has failed.
    pub fn failure(&self) -> Option<io::Error> {
        self.failure
    }
}

impl<R: AllocGlobal + Files<File = File> + Clone + Drop> Store for FolderStore<'_, R> {
    ghost tells = { false };

    ghost view = { λ _. untold };

    ghost counts = { λ s. record {
      reads = s.read_faults;
      writes = s.write_faults;
      removes = s.remove_faults;
      taken = s.taken;
    } };

    ghost reads_outcome = { λ s file. tt };

    ghost absent_is_empty = { λ s file e. refl };

    fn attach(&mut self, folder: &str) -> Result<(), Failed> {
        let done = self.folder.attach(folder);
        counted(done, &mut self.read_faults, &mut self.failure)
    }

    fn size(&mut self, file: u64) -> Result<u64, Failed> {
        let done = self.folder.size(file);
        counted(done, &mut self.read_faults, &mut self.failure)
    }

    fn read(&mut self, file: u64, at: u64, buf: &mut [u8]) -> Result<usize, Failed> {
        let done = self.folder.read(file, at, buf);
        let count = counted(done, &mut self.read_faults, &mut self.failure)?;
        self.taken = self.taken.saturating_add(count as u64);
        Ok(count)
    }

    fn write(&mut self, file: u64, at: u64, bytes: &[u8]) -> Result<(), Failed> {
        let done = self.folder.write(file, at, bytes);
        counted(done, &mut self.write_faults, &mut self.failure)
    }

    fn cut(&mut self, file: u64, len: u64) -> Result<(), Failed> {
        let done = self.folder.cut(file, len);
        counted(done, &mut self.write_faults, &mut self.failure)
    }

    fn sync(&mut self, file: u64) -> Result<(), Failed> {
        let done = self.folder.sync(file);
        counted(done, &mut self.write_faults, &mut self.failure)
    }

    fn remove(&mut self, file: u64) -> Result<(), Failed> {
        let done = self.folder.remove(file);
        counted(done, &mut self.remove_faults, &mut self.failure)
    }

    fn next_file(&mut self, from: u64) -> Result<Option<u64>, Failed> {
        let done = self.folder.next_file(from);
        counted(done, &mut self.read_faults, &mut self.failure)
    }
}

// What a call gave, or `Failed`, which is counted, and why it is.
fn counted<T: Drop>(
    done: io::Result<T>,
    faults: &mut u64,
    failure: &mut Option<io::Error>,
) -> Result<T, Failed>
    ensures value { IfOk result (λ value. done ≡ Ok value) }
    ensures cause { OnErr result (Rose faults.old faults.new) }
    ensures no_fault { OnOk result (faults.new ≡ faults.old) }
    ensures counts { faults.old ≤ faults.new }
    ensures told { IfErr done (λ error. failure.new ≡ Some error) }
    ensures untold { OnOk result (failure.new ≡ failure.old) }
{
    match done {
        Ok(value) => Ok(value),
        Err(error) => {
            *failure = Some(error);
            *faults = faults.saturating_add(1);
            Err(Failed)
        }
    }
}

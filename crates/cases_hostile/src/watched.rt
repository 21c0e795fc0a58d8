//! A store in memory that remembers which of its calls failed first.
ghost use Rattle.std.specs.Prelude.{◌≡◌, false, refl};
ghost use Rattle.outside_traits.specs.View.{untold};

use mem_outside::MemStore;
use outside_traits::{Failed, Store};

/// The calls of a store.
#[derive(Clone, Copy, Debug, PartialEq, Eq)]
pub enum Call {
    Attach,
    Size,
    Read,
    Write,
    Cut,
    Sync,
    Remove,
    NextFile,
}

/// A store in memory, and which of its calls failed first.
#[derive(Drop)]
pub struct WatchedStore {
    pub store: MemStore,
    pub failed: Option<Call>,
}

impl WatchedStore {
    pub fn new(store: MemStore) -> WatchedStore {
        WatchedStore {
            store,
            failed: None,
        }
    }
}

impl Store for WatchedStore {
    ghost tells = { false };

    ghost view = { λ _. untold };

    ghost counts = { λ s. ⟦<MemStore as Store>⟧.counts s.store };

    ghost reads_outcome = { λ s file. tt };

    ghost absent_is_empty = { λ s file e. refl };

    fn attach(&mut self, folder: &str) -> Result<(), Failed> {
        noted(self.store.attach(folder), Call::Attach, &mut self.failed)
    }

    fn size(&mut self, file: u64) -> Result<u64, Failed> {
        noted(self.store.size(file), Call::Size, &mut self.failed)
    }

    fn read(&mut self, file: u64, at: u64, buf: &mut [u8]) -> Result<usize, Failed> {
        noted(self.store.read(file, at, buf), Call::Read, &mut self.failed)
    }

    fn write(&mut self, file: u64, at: u64, bytes: &[u8]) -> Result<(), Failed> {
        noted(
            self.store.write(file, at, bytes),
            Call::Write,
            &mut self.failed,
        )
    }

    fn cut(&mut self, file: u64, len: u64) -> Result<(), Failed> {
        noted(self.store.cut(file, len), Call::Cut, &mut self.failed)
    }

    fn sync(&mut self, file: u64) -> Result<(), Failed> {
        noted(self.store.sync(file), Call::Sync, &mut self.failed)
    }

    fn remove(&mut self, file: u64) -> Result<(), Failed> {
        noted(self.store.remove(file), Call::Remove, &mut self.failed)
    }

    fn next_file(&mut self, from: u64) -> Result<Option<u64>, Failed> {
        noted(self.store.next_file(from), Call::NextFile, &mut self.failed)
    }
}

// What a call gave. Where it failed and none before it did, it is the first that failed.
fn noted<T>(given: Result<T, Failed>, call: Call, failed: &mut Option<Call>) -> Result<T, Failed>
    ensures { result ≡ given }
{
    if given.is_err() && failed.is_none() {
        *failed = Some(call);
    }
    given
}

//! Why a folder isn't loaded.
ghost use Rattle.std.specs.Prelude.{◌≡◌};
ghost use Rattle.folder.specs.Refusals.{journal_as};

use journal_store::JournalRefusal;
use thiserror::Error;

/// Why a folder wasn't loaded.
#[derive(Clone, Copy, Debug, PartialEq, Eq, Error)]
pub enum LoadRefusal {
    /// The store failed.
    #[error("the store failed")]
    Fault,
    /// The files are no folder's: reading stops at this byte of this file.
    #[error("not a store: file {file} at {at}")]
    NotAStore { file: u64, at: u64 },
    /// Memory was refused.
    #[error("out of memory")]
    Memory,
}

// Why a folder isn't loaded, where its journal isn't.
pub(crate) fn of_journal(refusal: JournalRefusal) -> LoadRefusal
    ensures { result ≡ journal_as refusal }
{
    match refusal {
        JournalRefusal::Fault => LoadRefusal::Fault,
        JournalRefusal::NotAStore { file, at } => LoadRefusal::NotAStore { file, at },
        JournalRefusal::Memory => LoadRefusal::Memory,
    }
}

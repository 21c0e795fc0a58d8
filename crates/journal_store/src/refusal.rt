//! Why a journal isn't loaded.
ghost use Rattle.std.specs.Prelude.{◌≡◌};
ghost use Rattle.journal_store.specs.declared.refusal.JournalRefusal.TheVariants.{Fault};
ghost use Rattle.journal_store.specs.Refusals.{refusal_in};

use gated_log::LogRefusal;
use outside_traits::Failed;
use thiserror::Error;

/// Why a journal wasn't loaded.
#[derive(Clone, Copy, Debug, PartialEq, Eq, Error)]
pub enum JournalRefusal {
    /// The store failed.
    #[error("the store failed")]
    Fault,
    /// The files are no journal: reading stops at this byte of this file.
    #[error("not a store: file {file} at {at}")]
    NotAStore { file: u64, at: u64 },
    /// Memory was refused.
    #[error("out of memory")]
    Memory,
}

impl From<Failed> for JournalRefusal {
    ghost from_gives = { λ _ e. e ≡ Fault };

    fn from(_failed: Failed) -> JournalRefusal {
        JournalRefusal::Fault
    }
}

// Why the journal isn't loaded, where this log of it isn't read.
pub(crate) fn in_file(file: u64, refusal: LogRefusal) -> JournalRefusal
    ensures { result ≡ refusal_in file refusal }
{
    match refusal {
        LogRefusal::Fault => JournalRefusal::Fault,
        LogRefusal::NotLog { at } => JournalRefusal::NotAStore { file, at },
        LogRefusal::Memory => JournalRefusal::Memory,
    }
}

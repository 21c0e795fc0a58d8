//! Why a file's bytes aren't given.
ghost use Rattle.std.specs.Prelude.{◌≡◌};
ghost use Rattle.extent_files.specs.declared.refusal.FileRefusal.TheVariants.{Fault};
ghost use Rattle.extent_files.specs.Files.{unread_as};

use outside_traits::{Failed, Unread};
use rows_core::Digest;
use thiserror::Error;

/// Why a file wasn't read.
#[derive(Clone, Copy, Debug, PartialEq, Eq, Error)]
pub enum FileRefusal {
    /// The store failed.
    #[error("the store failed")]
    Fault,
    /// The file's bytes have the digest `found` where `kept` was kept; so many of them were taken.
    #[error("the file is damaged")]
    Damaged {
        kept: Digest,
        found: Digest,
        taken: u64,
    },
    /// Memory was refused.
    #[error("out of memory")]
    Memory,
}

impl From<Failed> for FileRefusal {
    ghost from_gives = { λ _ e. e ≡ Fault };

    fn from(_failed: Failed) -> FileRefusal {
        FileRefusal::Fault
    }
}

impl From<Unread> for FileRefusal {
    ghost from_gives = { λ unread e. e ≡ unread_as unread };

    fn from(unread: Unread) -> FileRefusal {
        match unread {
            Unread::Fault => FileRefusal::Fault,
            Unread::Memory => FileRefusal::Memory,
        }
    }
}

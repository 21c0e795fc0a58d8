//! Why a log isn't read.
ghost use Rattle.std.specs.Prelude.{◌≡◌};
ghost use Rattle.gated_log.specs.declared.refusal.LogRefusal.TheVariants.{Fault, Memory};
ghost use Rattle.gated_log.specs.Refusals.{unread_as};

use outside_traits::{Failed, Unread};
use std::alloc::{AllocError, AllocFailed};
use thiserror::Error;

/// Why a log wasn't read.
#[derive(Clone, Copy, Debug, PartialEq, Eq, Error)]
pub enum LogRefusal {
    /// The store failed.
    #[error("the store failed")]
    Fault,
    /// The file is no log: reading stops at this byte.
    #[error("not a log")]
    NotLog { at: u64 },
    /// Memory was refused.
    #[error("out of memory")]
    Memory,
}

impl From<Failed> for LogRefusal {
    ghost from_gives = { λ _ e. e ≡ Fault };

    fn from(_failed: Failed) -> LogRefusal {
        LogRefusal::Fault
    }
}

impl From<Unread> for LogRefusal {
    ghost from_gives = { λ unread e. e ≡ unread_as unread };

    fn from(unread: Unread) -> LogRefusal {
        match unread {
            Unread::Fault => LogRefusal::Fault,
            Unread::Memory => LogRefusal::Memory,
        }
    }
}

impl From<AllocError> for LogRefusal {
    ghost from_gives = { λ _ e. e ≡ Memory };

    fn from(_error: AllocError) -> LogRefusal {
        LogRefusal::Memory
    }
}

impl<T: Drop> From<AllocFailed<T>> for LogRefusal {
    ghost from_gives = { λ _ e. e ≡ Memory };

    fn from(_error: AllocFailed<T>) -> LogRefusal {
        LogRefusal::Memory
    }
}

//! Why a line tells no catalogue.

use crate::key::Key;
use rows_core::Memory;
use std::alloc::{AllocError, AllocFailed};
use thiserror::Error;

/// Why a line tells no catalogue.
#[derive(Clone, Copy, Debug, PartialEq, Eq, Error)]
pub enum ReadRefusal {
    /// It is no JSON (RFC 8259), or nests deeper than 127.
    #[error("not JSON")]
    NotJson,
    /// The whole has no such key, or its value isn't what it is to be.
    #[error("{} is missing, or not what it is to be", .0.word())]
    Missing(Key),
    /// An item of this list has no such key, or its value isn't what it is to be.
    #[error("{}[].{} is missing, or not what it is to be", .list.word(), .key.word())]
    MissingIn { list: Key, key: Key },
    #[error("out of memory")]
    Memory,
}

/// Why a value or an object isn't read.
#[derive(Clone, Copy)]
pub enum Unread {
    Missing(Key),
    Memory,
}

impl From<Memory> for Unread {
    ghost use Rattle.std.specs.Prelude.{◌≡◌};
    ghost use Rattle.catalog_page.specs.declared.refusal.Unread.TheVariants as unread;

    ghost from_gives = { λ _ e. e ≡ unread.Memory };

    fn from(_memory: Memory) -> Unread {
        Unread::Memory
    }
}

impl From<AllocError> for Unread {
    ghost use Rattle.std.specs.Prelude.{◌≡◌};
    ghost use Rattle.catalog_page.specs.declared.refusal.Unread.TheVariants as unread;

    ghost from_gives = { λ _ e. e ≡ unread.Memory };

    fn from(_error: AllocError) -> Unread {
        Unread::Memory
    }
}

impl<T: Drop> From<AllocFailed<T>> for Unread {
    ghost use Rattle.std.specs.Prelude.{◌≡◌};
    ghost use Rattle.catalog_page.specs.declared.refusal.Unread.TheVariants as unread;

    ghost from_gives = { λ _ e. e ≡ unread.Memory };

    fn from(_error: AllocFailed<T>) -> Unread {
        Unread::Memory
    }
}

impl From<AllocError> for ReadRefusal {
    ghost use Rattle.std.specs.Prelude.{◌≡◌};
    ghost use Rattle.catalog_page.specs.declared.refusal.ReadRefusal.TheVariants as refusal;

    ghost from_gives = { λ _ e. e ≡ refusal.Memory };

    fn from(_error: AllocError) -> ReadRefusal {
        ReadRefusal::Memory
    }
}

impl From<Memory> for ReadRefusal {
    ghost use Rattle.std.specs.Prelude.{◌≡◌};
    ghost use Rattle.catalog_page.specs.declared.refusal.ReadRefusal.TheVariants as refusal;

    ghost from_gives = { λ _ e. e ≡ refusal.Memory };

    fn from(_memory: Memory) -> ReadRefusal {
        ReadRefusal::Memory
    }
}

//! Why a field was not read.
ghost use Rattle.std.specs.Prelude.{◌≡◌};
ghost use Rattle.byte_formats.specs.declared.unread.Unread.TheVariants.{Memory};

use std::alloc::{AllocError, AllocFailed};

/// Why a field was not read.
#[derive(Drop)]
pub enum Unread {
    Memory,
    /// How many bytes are left from the place where reading stops.
    Left(usize),
}

impl From<AllocError> for Unread {
    ghost from_gives = { λ _ e. e ≡ Memory };

    fn from(_error: AllocError) -> Unread {
        Unread::Memory
    }
}

impl<T: Drop> From<AllocFailed<T>> for Unread {
    ghost from_gives = { λ _ e. e ≡ Memory };

    fn from(_error: AllocFailed<T>) -> Unread {
        Unread::Memory
    }
}

impl From<rows_core::Memory> for Unread {
    ghost from_gives = { λ _ e. e ≡ Memory };

    fn from(_error: rows_core::Memory) -> Unread {
        Unread::Memory
    }
}

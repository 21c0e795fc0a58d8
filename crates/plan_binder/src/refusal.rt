//! Why names are not bound.
ghost use Rattle.std.specs.Prelude.{◌≡◌};
ghost use Rattle.plan_binder.specs.declared.refusal.BindRefusal.TheVariants as bound;

use rows_core::{Memory, Name};
use std::alloc::{AllocError, AllocFailed};
use thiserror::Error;

/// Why a plan's names were not bound.
#[derive(Debug, Drop, Error)]
pub enum BindRefusal {
    /// The first stream from the left that isn't there.
    #[error("a stream isn't there")]
    Unknown(Name),
    /// A column isn't there, or two columns of a result have one name.
    #[error("a column isn't there, or two have one name")]
    IllTyped,
    #[error("out of memory")]
    Memory,
}

impl From<Memory> for BindRefusal {
    ghost from_gives = { λ _ e. e ≡ bound.Memory };

    fn from(_memory: Memory) -> BindRefusal {
        BindRefusal::Memory
    }
}

impl From<AllocError> for BindRefusal {
    ghost from_gives = { λ _ e. e ≡ bound.Memory };

    fn from(_error: AllocError) -> BindRefusal {
        BindRefusal::Memory
    }
}

impl<T: Drop> From<AllocFailed<T>> for BindRefusal {
    ghost from_gives = { λ _ e. e ≡ bound.Memory };

    fn from(_error: AllocFailed<T>) -> BindRefusal {
        BindRefusal::Memory
    }
}

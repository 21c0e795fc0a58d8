//! Why nothing is collected.
ghost use Rattle.std.specs.Prelude.{◌≡◌};
ghost use Rattle.planning.specs.declared.collection_refusal.CollectionRefusal.TheVariants as refusal;

use rows_core::Memory;
use thiserror::Error;

/// Why nothing is collected.
#[derive(Clone, Copy, Debug, PartialEq, Eq, Error)]
pub enum CollectionRefusal {
    /// As many commands are recorded as may be: 4,294,967,295.
    #[error("no more commands may be recorded")]
    Commands,
    #[error("out of memory")]
    Memory,
}

impl From<Memory> for CollectionRefusal {
    ghost from_gives = { λ _ e. e ≡ refusal.Memory };

    fn from(_memory: Memory) -> CollectionRefusal {
        CollectionRefusal::Memory
    }
}

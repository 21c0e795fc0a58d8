//! Why a change isn't made.
ghost use Rattle.std.specs.Prelude.{◌≡◌};
ghost use Rattle.catalog_core.specs.declared.refusal.CatalogRefusal.TheVariants as refusal;

use rows_core::Memory;
use thiserror::Error;

/// Why a catalogue isn't prepared for a change.
#[derive(Clone, Copy, Debug, PartialEq, Eq, Error)]
pub enum CatalogRefusal {
    #[error("the change doesn't fit")]
    Misfit,
    #[error("out of memory")]
    Memory,
}

impl From<Memory> for CatalogRefusal {
    ghost from_gives = { λ _ e. e ≡ refusal.Memory };

    fn from(_memory: Memory) -> CatalogRefusal {
        CatalogRefusal::Memory
    }
}

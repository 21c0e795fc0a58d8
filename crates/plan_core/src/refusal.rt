//! Why a plan has no typing, and why an expression has no value.
ghost use Rattle.std.specs.Prelude.{◌≡◌};
ghost use Rattle.plan_core.specs.declared.refusal.EvRefusal.TheVariants as value;
ghost use Rattle.plan_core.specs.declared.refusal.PlanRefusal.TheVariants as typing;

use rows_core::{Memory, Overflow};
use thiserror::Error;

/// Why a plan was not typed.
#[derive(Clone, Copy, Debug, PartialEq, Eq, Error)]
pub enum PlanRefusal {
    /// The first stream from the left that isn't there.
    #[error("no stream {stream}")]
    Unknown { stream: u32 },
    /// The plan has no typing.
    #[error("ill typed")]
    IllTyped,
    /// It has more than 32 columns of an operator's rows, keys of an order or pairs of a join.
    #[error("too many columns, keys or pairs")]
    TooMany,
    #[error("out of memory")]
    Memory,
}

/// Why an expression has no value at a row.
#[derive(Clone, Copy, Debug, PartialEq, Eq, Error)]
pub enum EvRefusal {
    #[error("overflow")]
    Overflow,
    #[error("out of memory")]
    Memory,
}

impl From<Memory> for PlanRefusal {
    ghost from_gives = { λ _ e. e ≡ typing.Memory };

    fn from(_memory: Memory) -> PlanRefusal {
        PlanRefusal::Memory
    }
}

impl From<Memory> for EvRefusal {
    ghost from_gives = { λ _ e. e ≡ value.Memory };

    fn from(_memory: Memory) -> EvRefusal {
        EvRefusal::Memory
    }
}

impl From<Overflow> for EvRefusal {
    ghost from_gives = { λ _ e. e ≡ value.Overflow };

    fn from(_overflow: Overflow) -> EvRefusal {
        EvRefusal::Overflow
    }
}

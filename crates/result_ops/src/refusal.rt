//! Why no result was made.
ghost use Rattle.std.specs.Prelude.{◌≡◌};
ghost use Rattle.plan_core.specs.declared.refusal.EvRefusal.TheVariants as value;
ghost use Rattle.result_ops.specs.declared.refusal.MakeRefusal.TheVariants as refusal;
ghost use Rattle.result_ops.specs.Steps.{refusal_of};

use plan_core::EvRefusal;
use rows_core::Memory;
use thiserror::Error;

/// Why no result was made.
#[derive(Clone, Copy, Debug, PartialEq, Eq, Error)]
pub enum MakeRefusal {
    /// An operator, evaluated whole, met a number outside of i64.
    #[error("overflow")]
    Overflow,
    /// The machine time is above 4,294,967,295, or what is made lies outside of the bounds within which it
    /// may be worked on, as it doesn't where the machine time is within the limit.
    #[error("machine time above 4294967295")]
    Machine,
    #[error("out of memory")]
    Memory,
}

impl From<Memory> for MakeRefusal {
    ghost from_gives = { λ _ e. e ≡ refusal.Memory };

    fn from(_memory: Memory) -> MakeRefusal {
        MakeRefusal::Memory
    }
}

impl From<EvRefusal> for MakeRefusal {
    ghost from_gives = { λ r e. e ≡ refusal_of r };

    fn from(refusal: EvRefusal) -> MakeRefusal {
        match refusal {
            EvRefusal::Overflow => MakeRefusal::Overflow,
            EvRefusal::Memory => MakeRefusal::Memory,
        }
    }
}

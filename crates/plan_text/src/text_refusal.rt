//! Why a text is no plan.
ghost use Rattle.std.specs.Prelude.{◌≡◌};
ghost use Rattle.plan_text.specs.declared.text_refusal.TextRefusal.TheVariants as text;

use crate::PlanLimit;
use rows_core::Memory;
use thiserror::Error;

/// Why a text was not read as a plan.
#[derive(Clone, Copy, Debug, PartialEq, Eq, Error)]
pub enum TextRefusal {
    #[error("no plan is spelled so")]
    Syntax,
    /// The first of the limits, in their order, that the plan as written passes.
    #[error("too large a plan")]
    Limit { what: PlanLimit },
    #[error("out of memory")]
    Memory,
}

impl From<Memory> for TextRefusal {
    ghost from_gives = { λ _ e. e ≡ text.Memory };

    fn from(_memory: Memory) -> TextRefusal {
        TextRefusal::Memory
    }
}

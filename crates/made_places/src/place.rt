//! Places of plans.
use plan_core::Plan;
use rows_core::{Cut, Seq};

/// A place of a plan: the node that stands there, with what is below it, and its part of the cut. Contracts
/// see it as `place_of` says it.
#[derive(Drop)]
pub struct Place {
    pub plan: Plan,
    pub cuts: Seq<Cut>,
}

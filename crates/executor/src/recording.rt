//! Where the results that are made on the way are recorded.

use plan_core::Plan;
use result_ops::Made;
use rows_core::{Cut, Seq};

/// A result that was made on the way: of this plan at this cut.
#[derive(Drop)]
pub struct MadePlace {
    pub plan: Plan,
    pub cuts: Seq<Cut>,
    pub made: Made,
}

/// The results that were made on the way, in the order in which they were made, where they are recorded.
#[derive(Drop)]
pub enum Recording {
    Off,
    On(Vec<MadePlace>),
}

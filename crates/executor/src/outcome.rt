//! What a job comes to.
use plan_core::Plan;
use row_blob::Kept;
use rows_core::{Cut, Row, Seq};

/// What may be kept of a result that was made: of this plan at this cut, with the machine time, which is 1
/// and the rows that the plan takes in.
#[derive(Drop)]
pub struct KeptPlace {
    pub plan: Plan,
    pub cuts: Seq<Cut>,
    pub kept: Kept,
    pub machine: u32,
}

/// The rows of the plan at the cut, and what may be kept of the results that were made for them, in
/// post-order.
#[derive(Drop)]
pub struct Outcome {
    pub rows: Vec<Row>,
    pub made: Vec<KeptPlace>,
}

//! What a piece of work comes to.

use rows_core::Row;
use work_plan::WorkPlan;

/// What a piece of work comes to: the rows of its plan, the ids of the kept results that it used, the bytes
/// of the files that it read, and what it records.
#[derive(Drop)]
pub struct Work {
    pub rows: Vec<Row>,
    pub used: Vec<u32>,
    pub read: u64,
    pub plan: WorkPlan,
}

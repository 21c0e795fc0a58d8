//! What is made.
ghost use Rattle.std.specs.Prelude.{◌≡◌, length, ◌+◌, ◌<◌, ◌≤◌, IfOk, IfErr};

use row_blob::Kept;
use rows_core::Row;

/// What is kept of a plan's result, and how many rows the plan's operators take in. The machine time is one
/// more.
#[derive(Drop)]
pub struct Made {
    pub kept: Kept,
    pub taken_in: u64,
}

/// The rows that came behind those of a plan's earlier result, and how many rows more its operators take in.
#[derive(Drop)]
pub struct Added {
    pub rows: Vec<Row>,
    pub taken_in: u64,
}

/// The rows that an operator takes in, and how many rows were taken in with them.
#[derive(Drop)]
pub struct Input {
    pub rows: Vec<Row>,
    pub taken_in: u64,
}

//! The scalar operations: which there are, for which kinds, and what each gives.
#![tactic(auto)]

pub mod cell;
pub mod division;
pub mod laws;
pub mod operations;
pub mod table;

pub use cell::{Cell, CellKind};
pub use laws::{rows_are_found_by_kinds, table_as_stated, values_are_cells};
pub use operations::apply;
pub use table::{Args, OPS, Op, OpRow, OpTable, Operations};

//! The rows of answers as CSV.
#![tactic(auto)]

pub mod answers;
pub mod lines;
pub mod row_cells;

pub use answers::write_csv;
pub use lines::RowsRefusal;

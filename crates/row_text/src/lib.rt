//! How a row is written in a line of the script, and how a line is read as a row.
#![tactic(auto)]

mod field;
pub mod print;
pub mod read;

pub use print::{longest_spelling, one_spelling, print_row, row_is_short};
pub use read::{RowRefusal, read_row};

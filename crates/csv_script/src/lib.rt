//! CSV as a script of appends, and the rows of answers as CSV.
#![tactic(auto)]

pub mod append;
pub mod blocks;
pub mod cell;
mod declaring;
mod header;
pub mod number;
pub mod pick;
pub mod reading;
pub mod record;

pub use append::{AppendRefusal, Request, write_script};
pub use header::HeaderRefusal;
pub use reading::reader_of;
pub use record::RecordRefusal;

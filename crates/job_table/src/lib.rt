//! The open jobs, by name, in the order in which they were opened. There are few of them at a time, so they are
//! looked through.
#![tactic(auto)]

pub mod table;

pub use table::{JobTable, OpenJob};

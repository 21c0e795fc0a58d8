//! Joins of lists of rows. The rows of a join are kept with the positions of their left rows, so that it can
//! grow with either list.
#![tactic(auto)]

mod index;
pub mod joining;
mod key;
pub mod merging;

pub use joining::join_tagged;
pub use merging::{append_tagged, merge_tagged};

//! The kept results of a catalogue by their ids, and what work and collections make of them.
#![tactic(auto)]

mod ids;
mod keys;
pub mod laws;
mod restoring;
mod results;
mod table;
mod uses;

pub use ids::is_among;
pub use keys::{Chains, Keys};
pub use table::EntryTable;

//! Work that is open stays open as other commands follow, which may let streams grow, keep further results and
//! evict kept results that aren't held.
#![tactic(auto)]

pub mod laws;

pub use laws::{later_states, later_tables, open_work_stays};

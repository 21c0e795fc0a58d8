//! Which kept results go when bytes are asked for: those whose bytes lay idle longest for how much they were
//! used and how long they took to compute.
#![tactic(auto)]

pub mod candidate;
pub mod collection;
mod exact;
pub mod laws;
pub mod ratio;

pub use candidate::Candidate;
pub use collection::victims;
pub use laws::{one_list_of_victims, ratios_are_ordered};
pub use ratio::ratio_cmp;

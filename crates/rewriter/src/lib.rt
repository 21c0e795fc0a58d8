//! The least rewriting of a plan at a cut, what a rewriting is estimated to cost, and the bytes that it
//! reads.
#![tactic(auto)]

mod bounds;
mod choosing;
mod computing;
mod cuts;
mod growth;
mod increase;
mod inputs;
pub mod laws;
mod least_rewriting;
mod measures;
mod nodes;
mod parts;
mod places;
mod priced;
mod prices;
mod search;
mod sums;
mod table;
mod trees;

pub use least_rewriting::least;
pub use measures::{estimate, reads};

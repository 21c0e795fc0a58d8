//! The places of a plan at which a rewriting makes a result that may be kept.
#![tactic(auto)]

mod before;
mod counting;
pub mod laws;
mod made;
mod marks;
mod picking;
pub mod place;

pub use counting::counts_below;
pub use laws::places_with_trees_are_made;
pub use made::made_places;
pub use place::Place;

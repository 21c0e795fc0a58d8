//! Rewritings: how the result of a plan on a cut is computed, read or grown from an earlier one.
#![tactic(auto)]

mod computed;
mod files;
pub mod laws;
pub mod lookup;
pub mod places;
pub mod rewriting;

pub use laws::computed_rewritings;
pub use lookup::Lookup;
pub use places::Places;
pub use rewriting::{Delta, DeltaWay, Hit, Parts, Rewriting, Way};

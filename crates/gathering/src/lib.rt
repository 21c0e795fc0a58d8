//! What a plan over one stream makes of the stream's extents, which are fed one after another, so that no
//! more rows are kept than the operators need.
#![tactic(auto)]

mod chain;
mod gathering;
mod held;
mod laws;
mod progress;

pub use gathering::Gathering;
pub use laws::rows_that_are_held;

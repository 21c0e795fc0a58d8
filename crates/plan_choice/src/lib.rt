//! The rewriting that a run takes of a plan.
#![tactic(auto)]

pub mod choosing;
pub mod laws;
pub mod leaving;

pub use choosing::{Choice, choose, choose_without, normal_form};
pub use laws::{bytes_of_named_files, serving_rewritings, taken_rewritings};
pub use leaving::results_are_left_out;

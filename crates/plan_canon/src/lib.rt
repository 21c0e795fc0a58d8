//! Normal plans: the plan that the rules lead to, and that it means the same.
#![tactic(auto)]

mod expressions;
mod fusion;
pub mod laws;
mod normal;
mod plans;

pub use normal::canon;

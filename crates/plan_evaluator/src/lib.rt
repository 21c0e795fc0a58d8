//! A plain evaluator of plans, which later bodies are compared with by tests. Nothing but tests stands on it.
#![tactic(auto)]

mod aggregate;
pub mod evaluator;
mod operators;

pub use evaluator::evaluate;

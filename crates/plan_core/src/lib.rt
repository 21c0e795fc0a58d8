//! The language of queries: plans, their typing, and what an expression and a plan mean.
#![tactic(auto)]

pub mod agg;
pub mod evaluation;
pub mod expr;
pub mod laws;
mod literals;
pub mod plan;
mod plan_types;
pub mod refusal;
pub mod schemas;
pub mod typed;
pub mod typing;

pub use agg::Agg;
pub use evaluation::ev;
pub use expr::Expr;
pub use laws::{rows_taken_in_are_those_below, values_have_their_kinds};
pub use plan::Plan;
pub use refusal::{EvRefusal, PlanRefusal};
pub use schemas::Schemas;
pub use typed::{Typed, type_plan};
pub use typing::expression_kind;

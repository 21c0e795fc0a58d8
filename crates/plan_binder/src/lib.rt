//! The binding of a plan's names to numbers.
#![tactic(auto)]

mod allocation;
mod bind_expr;
pub mod bind_laws;
mod bind_names;
pub mod binder;
mod bound;
mod columns;
mod op_rows;
pub mod refusal;
mod result_columns;
pub mod stream;

pub use binder::bind;
pub use refusal::BindRefusal;
pub use stream::Stream;

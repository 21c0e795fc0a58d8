//! The operators whose result is a list of rows, each over lists in memory: rows that pass a test, columns of
//! rows, the first of equal rows, and rows in order; and what each needs to go on from an earlier result when
//! rows are added. An operator takes rows over where it keeps them, so that none is copied.
#![tactic(auto)]

mod distinct;
mod filter;
mod order;
mod project;
mod seen;

pub use distinct::{distinct_after, distinct_rows};
pub use filter::{where_lent, where_rows};
pub use order::{merge_ordered, order_rows};
pub use plan_core::EvRefusal as OpRefusal;
pub use project::select_rows;
pub use seen::Seen;

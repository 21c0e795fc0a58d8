//! The operators over results as they are kept: what is made of the results of a plan's inputs, of the rows
//! that came behind them, and of an earlier result and such rows; with the rows that the operators take in,
//! and so with the machine time of the plan.
#![tactic(auto)]

mod bounds;
mod deltas;
mod grown;
mod joins;
pub mod laws;
pub mod made;
mod one_input;
pub mod refusal;
mod rows;
pub mod stop;
mod two_inputs;

pub use bounds::are_bounded;
pub use deltas::{added_of_child, added_of_distinct, added_of_join};
pub use grown::made_of_grown;
pub use joins::{made_of_both, made_of_left, made_of_right};
pub use laws::{added_rows_are_fit, computed_results_are_fit, grown_results_are_fit};
pub use made::{Added, Input, Made};
pub use one_input::made_of_one;
pub use refusal::MakeRefusal;
pub use rows::rows_of;
pub use stop::Stop;
pub use two_inputs::made_of_two;

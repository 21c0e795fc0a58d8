//! What a piece of work records: of the results that were made those that are kept, the program that the plan
//! is stored as, and the results that were used.
#![tactic(auto)]

mod ids;
pub mod laws;
mod parting;
pub mod work;

pub use laws::places_of_fit_plans;
pub use work::{WorkPlan, plan_work};

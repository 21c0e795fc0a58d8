//! Which results that were made are kept, and the bytes of their files.
#![tactic(auto)]

mod admitting;
mod deciding;
pub mod laws;
pub mod new_result;

pub use admitting::admit;
pub use laws::admitted_results_may_be_kept;
pub use new_result::NewResult;

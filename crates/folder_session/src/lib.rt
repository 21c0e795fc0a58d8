//! A folder that was loaded, and each command of a script performed over it that concerns no job.
#![tactic(auto)]

pub mod choosing;
mod collecting;
pub mod laws;
mod listing;
pub mod refusals;
pub mod session;
mod turning;
mod wanting;
mod working;

pub use choosing::{NormalChoice, chosen};
pub use folder::LoadRefusal;
pub use laws::{files_are_read, one_outcome, refusals_have_causes};
pub use refusals::refusal_of;
pub use session::FolderSession;

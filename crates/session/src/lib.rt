//! The session: a folder that was loaded, the jobs that are open over it, and each command of a script performed.
#![tactic(auto)]

mod jobs;
pub mod laws;
mod recording;
pub mod session;
mod work;

pub use folder_session::LoadRefusal;
pub use laws::{files_are_read, refusals_have_causes};
pub use session::Session;

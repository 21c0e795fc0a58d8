//! The journal of a store: a root that names the generation in use, and the log of that generation, which has
//! the bodies. Each file has its own log, so that a crash leaves the bodies without the new one or with it.
#![tactic(auto)]

pub mod journal;
pub mod making;
pub mod refusal;
pub mod root;

pub use journal::{Journal, USERS_FILE};
pub use refusal::JournalRefusal;
pub use root::one_journal;

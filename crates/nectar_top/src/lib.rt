//! The whole program as one call: from the words of the command line and the script's bytes to the answers'
//! bytes.
#![tactic(auto)]

pub mod exit;
mod generated;
pub mod program;
mod sending;
mod server;
pub mod summary;

pub use exit::Exit;
pub use program::nectar;

//! Sources, sinks and stores in memory, with calls that fail where they are told to.
#![tactic(auto)]

pub mod file_state;
mod files;
pub mod history;
mod schedule;
pub mod sink;
pub mod source;
pub mod store;

pub use sink::MemSink;
pub use source::MemSource;
pub use store::MemStore;

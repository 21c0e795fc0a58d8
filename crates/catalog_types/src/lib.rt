//! The plain data of the catalogue: what it holds, and the changes that make it.
#![tactic(auto)]

pub mod change;
pub mod entry;
pub mod extent;
pub mod program;
pub mod snapshot;

pub use change::Change;
pub use entry::{Entry, NewEntry};
pub use extent::Extent;
pub use program::Program;
pub use snapshot::{Snapshot, StreamState, copy_entries, copy_programs};

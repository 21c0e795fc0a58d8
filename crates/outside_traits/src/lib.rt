//! What lies outside of the program, as traits: where the script comes from, where the answers go and where
//! the files lie. What an object holds is told to contracts where its type knows it, and each failed call is
//! counted.
#![tactic(auto)]

pub mod failed;
pub mod front;
pub mod sink;
pub mod source;
pub mod store;

pub use failed::Failed;
pub use front::{Unread, read_front};
pub use sink::{Sink, WriterSink};
pub use source::{ReaderSource, Source};
pub use store::Store;
